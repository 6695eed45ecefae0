//! The cases of a transcript, read line by line.
ghost use Rattle.std.specs.Prelude.{◌≡◌, ◌++◌, ◌∷◌, [], if◌then◌else◌, IfOk, OnOk, map};
ghost use Rattle.kapi_lines.specs.Lines.{line_of};
ghost use Rattle.kapi_transcripts.specs.Cases as cased;
ghost use Rattle.kapi_transcripts.specs.Cases.{case_of, cases_from, draft_of, drafted, fresh};

use crate::case::{Beginning, Case, Expectation, Loaded, Manifests, ScriptLine};
use crate::form::{Form, Source, parse_form};
use crate::request::{Request, feed_line, request_bytes, word_line};
use crate::wanted::Expected;
use kapi_lines::{Line, copy_of};
use kapi_text::{Memory, Sequence};
use std::alloc::Global;
use std::mem;

/// A case that is being read.
#[derive(Drop)]
pub struct Draft {
    /// The line that begins the case; 0 if none does.
    number: usize,
    begins: Beginning,
    kinds: Vec<Loaded>,
    rechecks: bool,
    script: Vec<ScriptLine>,
    wants: Vec<Expectation>,
    /// The names that the connections were opened for, in their order.
    opened: Vec<Sequence<u8>>,
    /// The connection that was taken last.
    taken: Option<usize>,
    /// Whether a header field may be on the next line.
    fields: bool,
}

impl Draft {
    /// A case without lines.
    fn new(alloc: Global) -> Draft
        ensures { draft_of result ≡ fresh }
    {
        Draft {
            number: 0,
            begins: Beginning::Opening,
            kinds: Vec::new(alloc),
            rechecks: false,
            script: Vec::new(alloc),
            wants: Vec::new(alloc),
            opened: Vec::new(alloc),
            taken: None,
            fields: false,
        }
    }

    /// Whether a line that begins a case begins this one, which has settings alone so far.
    fn takes(&self, source: &Source) -> bool
        ensures { result ≡ cased.takes (draft_of self.now) source.now }
    {
        self.script.is_empty()
            && self.wants.is_empty()
            && (self.number == 0 || joins(&self.begins, source))
    }

    /// Lets the case begin as a line of this number says.
    fn begin(&mut self, alloc: Global, number: usize, source: Source) -> Result<(), Memory>
        ensures { OnOk result (draft_of self.new ≡ cased.begun (draft_of self.old) number source) }
    {
        let before = mem::replace(&mut self.begins, Beginning::Opening);
        self.begins = begins_with(alloc, before, number, source)?;
        self.number = number;
        Ok(())
    }

    /// The case that was read.
    fn into_case(self) -> Case
        ensures { result ≡ case_of (draft_of self) }
    {
        Case {
            number: if self.number == 0 { 1 } else { self.number },
            begins: self.begins,
            kinds: Sequence::new(self.kinds),
            rechecks: self.rechecks,
            script: Sequence::new(self.script),
            wants: Sequence::new(self.wants),
        }
    }

    /// Adds a line of the script.
    fn push_event(&mut self, number: usize, text: Sequence<u8>) -> Result<(), Memory>
        ensures { OnOk result (draft_of self.new ≡ cased.event (draft_of self.old) number text) }
    {
        self.script.push(ScriptLine { number, text })?;
        self.fields = false;
        Ok(())
    }

    /// Takes the connection of an identity, and opens it if there is none.
    fn take(&mut self, alloc: Global, number: usize, names: Sequence<u8>) -> Result<(), Memory>
        ensures { OnOk result (draft_of self.new ≡ cased.acted (draft_of self.old) number names) }
    {
        match connection_of(self.opened.as_slice(), names.as_slice()) {
            Some(connection) => {
                self.taken = Some(connection);
                self.fields = false;
                Ok(())
            }
            None => self.open(alloc, number, names),
        }
    }

    /// Opens a connection and takes it.
    fn open(&mut self, alloc: Global, number: usize, names: Sequence<u8>) -> Result<(), Memory>
        ensures { OnOk result (draft_of self.new ≡ cased.opens (draft_of self.old) number names) }
    {
        let connection = self.opened.len();
        self.push_event(number, open_line(alloc, names.as_slice())?)?;
        self.opened.push(names)?;
        self.taken = Some(connection);
        Ok(())
    }

    /// Adds a line of a script as it is.
    fn push_line(&mut self, alloc: Global, number: usize, text: &[u8]) -> Result<(), Memory>
        ensures { OnOk result (draft_of self.new ≡ cased.raw (draft_of self.old) number text.now) }
    {
        self.push_event(number, copy_of(alloc, text)?)?;
        if text.starts_with(b"open ") {
            self.opened.push(copy_of(alloc, &text[5..])?)?;
        }
        Ok(())
    }

    /// Adds a request on the connection that was taken last.
    fn push_request(
        &mut self,
        alloc: Global,
        line: &Line<'_>,
        request: &Request,
        later: &[Line<'_>],
    ) -> Result<(), Memory>
        ensures { OnOk result (draft_of self.new ≡ cased.asked (draft_of self.old) (line_of line.now) request.now (map line_of later.now)) }
    {
        let Some(connection) = self.taken else {
            return self.push_line(alloc, line.number, line.text);
        };
        let bytes = request_bytes(alloc, request, later)?;
        self.push_event(line.number, feed_line(alloc, connection, bytes.as_slice())?)?;
        self.push_event(line.number, word_line(alloc, b"serve ", connection)?)?;
        self.fields = true;
        Ok(())
    }

    /// Adds a pump of the connection that was taken last.
    fn push_pump(&mut self, alloc: Global, line: &Line<'_>) -> Result<(), Memory>
        ensures { OnOk result (draft_of self.new ≡ cased.pumped (draft_of self.old) (line_of line.now)) }
    {
        let Some(connection) = self.taken else {
            return self.push_line(alloc, line.number, line.text);
        };
        self.push_event(line.number, word_line(alloc, b"pump ", connection)?)
    }

    /// Lets the rights of watches be rechecked; after an event the line is one of the script.
    fn push_recheck(&mut self, alloc: Global, line: &Line<'_>) -> Result<(), Memory>
        ensures { OnOk result (draft_of self.new ≡ cased.rechecked (draft_of self.old) (line_of line.now)) }
    {
        if !self.script.is_empty() {
            return self.push_line(alloc, line.number, line.text);
        }
        self.rechecks = true;
        self.fields = false;
        Ok(())
    }

    /// Adds a file of kinds; after an event the line is one of the script.
    fn push_kinds(
        &mut self,
        alloc: Global,
        line: &Line<'_>,
        name: Sequence<u8>,
    ) -> Result<(), Memory>
        ensures { OnOk result (draft_of self.new ≡ cased.with_kinds (draft_of self.old) (line_of line.now) name) }
    {
        if !self.script.is_empty() {
            return self.push_line(alloc, line.number, line.text);
        }
        let number = line.number;
        self.kinds.push(Loaded { number, name })?;
        self.fields = false;
        Ok(())
    }

    /// Adds what is wanted of the last answer.
    fn push_want(&mut self, number: usize, wanted: Expected) -> Result<(), Memory>
        ensures { OnOk result (draft_of self.new ≡ cased.wants (draft_of self.old) number wanted) }
    {
        let events = self.script.len();
        self.wants.push(Expectation {
            number,
            events,
            wanted,
        })?;
        self.fields = false;
        Ok(())
    }

    /// Passes over a header field of a request; elsewhere the line is one of the script.
    fn push_field(&mut self, alloc: Global, line: &Line<'_>) -> Result<(), Memory>
        ensures { OnOk result (draft_of self.new ≡ cased.field (draft_of self.old) (line_of line.now)) }
    {
        if self.fields {
            return Ok(());
        }
        self.push_line(alloc, line.number, line.text)
    }

    /// Adds a line of this form to the case; `later` are the lines after it.
    fn push(
        &mut self,
        alloc: Global,
        line: &Line<'_>,
        form: Form,
        later: &[Line<'_>],
    ) -> Result<(), Memory>
        ensures { OnOk result (draft_of self.new ≡ drafted (draft_of self.old) (line_of line.now) form (map line_of later.now)) }
    {
        match form {
            Form::Actor(names) => self.take(alloc, line.number, names),
            Form::Request(request) => self.push_request(alloc, line, &request, later),
            Form::Field => self.push_field(alloc, line),
            Form::Pump => self.push_pump(alloc, line),
            Form::Recheck => self.push_recheck(alloc, line),
            Form::Kinds(name) => self.push_kinds(alloc, line, name),
            Form::Expectation(wanted) => self.push_want(line.number, wanted),
            Form::Begin(_) | Form::Event => self.push_line(alloc, line.number, line.text),
        }
    }
}

/// The number of the first connection that was opened for these names.
fn connection_of(opened: &[Sequence<u8>], names: &[u8]) -> Option<usize>
    ensures { result ≡ cased.connection_of opened.now names.now }
{
    opened.iter().position(|other| other.as_slice() == names)
}

/// The line of a script that opens a connection.
fn open_line(alloc: Global, names: &[u8]) -> Result<Sequence<u8>, Memory>
    ensures { IfOk result (λ s. s ≡ cased.open_line names.now) }
{
    let mut text = Vec::new(alloc);
    text.extend_from_slice(b"open ")?;
    text.extend_from_slice(names)?;
    Ok(Sequence::new(text))
}

/// Whether a line says more of what a case begins with.
fn joins(begins: &Beginning, source: &Source) -> bool
    ensures { result ≡ cased.joins begins.now source.now }
{
    match (begins, source) {
        (_, Source::Opening) | (Beginning::Lines(_), _) => false,
        (Beginning::Manifests(_), Source::Lines(_)) => false,
        _ => true,
    }
}

/// Reads a line of this number that begins a case: another one, unless the one that is being read takes the line.
fn read_source(
    alloc: Global,
    cases: &mut Vec<Case>,
    draft: &mut Draft,
    number: usize,
    source: Source,
) -> Result<(), Memory>
    ensures ended { OnOk result (cases.new.items ≡ cases.old.items ++ cased.ended_at (draft_of draft.old) source) }
    ensures begun { OnOk result (draft_of draft.new ≡ cased.begun (cased.begun_from (draft_of draft.old) source) number source) }
{
    if !draft.takes(&source) {
        let ended = mem::replace(draft, Draft::new(alloc));
        cases.push(ended.into_case())?;
    }
    draft.begin(alloc, number, source)
}

/// The manifests that a case begins with; no files if it begins with anything else.
fn manifests_in(alloc: Global, begins: Beginning) -> Manifests
    ensures { result ≡ cased.manifests_in begins }
{
    match begins {
        Beginning::Manifests(manifests) => manifests,
        _ => Manifests {
            files: Sequence::new(Vec::new(alloc)),
            defaults: false,
        },
    }
}

/// What a case begins with by a line of this number, after it began with this.
fn begins_with(
    alloc: Global,
    before: Beginning,
    number: usize,
    source: Source,
) -> Result<Beginning, Memory>
    ensures { IfOk result (λ b. b ≡ cased.begins_with before number source) }
{
    let Manifests { files, defaults } = manifests_in(alloc, before);
    match source {
        Source::Opening => Ok(Beginning::Opening),
        Source::Lines(name) => Ok(Beginning::Lines(Loaded { number, name })),
        Source::Manifests(name) => {
            let mut files = files.into_vec();
            files.push(Loaded { number, name })?;
            let files = Sequence::new(files);
            Ok(Beginning::Manifests(Manifests { files, defaults }))
        }
        Source::Defaults => {
            let defaults = true;
            Ok(Beginning::Manifests(Manifests { files, defaults }))
        }
    }
}

/// Reads a line of this form; `later` are the lines after it.
fn read_form(
    alloc: Global,
    cases: &mut Vec<Case>,
    draft: &mut Draft,
    line: &Line<'_>,
    form: Form,
    later: &[Line<'_>],
) -> Result<(), Memory>
    ensures ended { OnOk result (cases.new.items ≡ cases.old.items ++ cased.ended (draft_of draft.old) form) }
    ensures next { OnOk result (draft_of draft.new ≡ cased.next (draft_of draft.old) (line_of line.now) form (map line_of later.now)) }
{
    match form {
        Form::Begin(source) => read_source(alloc, cases, draft, line.number, source),
        form => draft.push(alloc, line, form, later),
    }
}

/// Reads a line; `later` are the lines after it.
fn read_line(
    alloc: Global,
    cases: &mut Vec<Case>,
    draft: &mut Draft,
    line: &Line<'_>,
    later: &[Line<'_>],
) -> Result<(), Memory>
    ensures { OnOk result (cases.new.items ++ cases_from (draft_of draft.new) (map line_of later.now)
        ≡ cases.old.items ++ cases_from (draft_of draft.old) (line_of line.now ∷ map line_of later.now)) }
{
    let form = parse_form(alloc, line.text)?;
    read_form(alloc, cases, draft, line, form, later)
}

/// Ends the last case.
#[tactic(auto, unfolding(crate::specs::Cases::cases_from))]
fn end(cases: &mut Vec<Case>, draft: Draft) -> Result<(), Memory>
    ensures { OnOk result (cases.new.items ≡ cases.old.items ++ cases_from (draft_of draft) []) }
{
    cases.push(draft.into_case())?;
    Ok(())
}

/// The cases of a transcript's lines.
pub fn cases(alloc: Global, lines: &[Line<'_>]) -> Result<Vec<Case>, Memory>
    ensures { IfOk result (λ v. v.items ≡ cased.cases_of (map line_of lines.now)) }
{
    let mut cases = Vec::new(alloc);
    let mut draft = Draft::new(alloc);
    let mut rest = lines;
    while let [line, later @ ..] = rest {
        read_line(alloc, &mut cases, &mut draft, line, later)?;
        rest = later;
    }
    end(&mut cases, draft)?;
    Ok(cases)
}
