ghost use Rattle.std.specs.Prelude.{◌≡◌, ℕ, List, IfOk, IfSome, IsErrOf, codes, true, length, map, option_and_then, option_map};
ghost use Rattle.clap.specs.Simple.{subcommand_rows_of};
ghost use Rattle.clap.specs.Walk.{first_of};
ghost use Rattle.kapi_command_line.specs.Asked.{AreWrong, Names, Reads, answer_of, are_idle, asked_by, asking_in, audit_in, audited_in, compare_in, each as each_of, first_of_word, form_in, has_manifests, has_reading, has_words, is_true, listens_in, paths_in, question_by, reading_by, readers_of, replay_in, rows_in, serve_in, served_in, suggest_in, text_or_empty as text_of, wanted_in, what_in, who_in};
ghost use Rattle.kapi_command_line.specs.Listens.{listen_of, listens_of, parted as parted_of};
ghost use Rattle.kapi_command_line.specs.Numbers.{are_few, is_first};

use crate::arguments::program;
use crate::numbers::{number_within, port};
use crate::program::{
    Asking, AuditFiles, Command, CommandFault, CompareWords, Listen, PathsWords, Reading,
    ReplayOptions, ServeOptions, SuggestWords, WhatWords, WhoQuestion, WhoWanted, WhoWords,
};
use clap::ArgMatches;
use clap::error::ErrorKind;
use kapi_lines::{Form, read_identity};
use kapi_text::{Memory, Sequence, Text};
use std::alloc::Global;

/// The largest number of ports that are served.
pub const PORTS: usize = 16;

/// Reads the command line; the first word is the program's name.
pub fn command(alloc: Global, words: &[&str]) -> Result<Command, CommandFault>
    ensures named { IfOk result (λ c. Names (map (λ word. word.now) words.now) c) }
    ensures wrong { IsErrOf result CommandFault.Words → AreWrong (map (λ word. word.now) words.now) }
{
    let program = program(alloc)?;
    match program.try_get_matches_from(words) {
        Ok(matches) => asked(alloc, &matches),
        Err(error) => match error.kind() {
            ErrorKind::DisplayHelp | ErrorKind::DisplayVersion => Ok(Command::Show(error)),
            ErrorKind::OutOfMemory => Err(CommandFault::Memory),
            _ => Err(CommandFault::Words),
        },
    }
}

/// What the subcommand and the words after it ask for.
fn asked(alloc: Global, matches: &ArgMatches<'_>) -> Result<Command, CommandFault>
    ensures { Reads result (option_and_then (λ p. asked_by p.0 p.1) (subcommand_rows_of matches.now)) }
{
    match matches.subcommand() {
        Some((name, words)) => named(alloc, name, words),
        None => Err(CommandFault::Words),
    }
}

/// What the subcommand of that name asks for.
fn named(alloc: Global, name: &str, words: &ArgMatches<'_>) -> Result<Command, CommandFault>
    ensures { Reads result (asked_by name.now (rows_in words.now)) }
{
    match name {
        "script" => Ok(Command::Script(each(alloc, words, "kinds")?)),
        "audit" => Ok(Command::Audit(audit_files(alloc, words)?)),
        "serve" => Ok(Command::Serve(serve_options(alloc, words)?)),
        "replay" => Ok(Command::Replay(replay_options(alloc, words)?)),
        "compare" => Ok(Command::Compare(compare_words(alloc, words)?)),
        "who" => Ok(Command::Who(who_words(alloc, words)?)),
        "what" => Ok(Command::What(what_words(alloc, words)?)),
        "risks" => Ok(Command::Risks(asking(alloc, words, "POLICY")?)),
        "paths" => Ok(Command::Paths(paths_words(alloc, words)?)),
        "check" => {
            let asking = asking(alloc, words, "POLICY")?;
            Ok(Command::Check(asking, each(alloc, words, "kinds")?))
        }
        "suggest" => Ok(Command::Suggest(suggest_words(alloc, words)?)),
        _ => Err(CommandFault::Words),
    }
}

// ---- what each subcommand asks for

fn audit_files(alloc: Global, words: &ArgMatches<'_>) -> Result<AuditFiles, CommandFault>
    ensures { Reads result (audit_in (rows_in words.now)) }
{
    let readers = readers(words).ok_or(CommandFault::Words)?;
    let form = form(words).ok_or(CommandFault::Words)?;
    Ok(AuditFiles {
        policy: needed(alloc, words, "POLICY")?,
        questions: needed(alloc, words, "QUESTIONS")?,
        kinds: each(alloc, words, "kinds")?,
        log: is_given(words, "log"),
        form,
        manifests: audited_manifests(alloc, words)?,
        readers,
    })
}

/// How the policy of an audit is read, if it is manifests, as it always is for an audit log; none if the policy is
/// lines, since options on reading manifests are refused then.
fn audited_manifests(alloc: Global, words: &ArgMatches<'_>) -> Result<Option<Reading>, CommandFault>
    ensures { Reads result (audited_in (rows_in words.now)) }
{
    if is_given(words, "manifests") || is_given(words, "log") {
        return Ok(Some(reading(alloc, words, "with")?));
    }
    if says_how_to_read(words) {
        return Err(CommandFault::Words);
    }
    Ok(None)
}

/// Whether some word says how manifests are read.
pub fn says_how_to_read(words: &ArgMatches<'_>) -> bool
    ensures { result ≡ has_reading (rows_in words.now) }
{
    value(words, "with").is_some()
        || is_given(words, "with-defaults")
        || value(words, "namespace").is_some()
        || is_given(words, "strict")
}

/// How manifests are read; `with` has the values of the option called `files`.
fn reading(alloc: Global, words: &ArgMatches<'_>, files: &str) -> Result<Reading, Memory>
    ensures { IfOk result (λ r. r ≡ reading_by files.now (rows_in words.now)) }
{
    Ok(Reading {
        with: each(alloc, words, files)?,
        defaults: is_given(words, "with-defaults"),
        namespace: text_or_empty(alloc, words, "namespace")?,
        strict: is_given(words, "strict"),
    })
}

fn serve_options(alloc: Global, words: &ArgMatches<'_>) -> Result<ServeOptions, CommandFault>
    ensures { Reads result (serve_in (rows_in words.now)) }
{
    let answer = answer(words).ok_or(CommandFault::Words)?;
    let readers = readers(words).ok_or(CommandFault::Words)?;
    let first_revision = first(words).ok_or(CommandFault::Words)?;
    let manifests = served_manifests(alloc, words)?;
    let listens = listens(alloc, words)?;
    Ok(ServeOptions {
        kinds: each(alloc, words, "kinds")?,
        load: text(alloc, words, "load")?,
        manifests,
        first_revision,
        recheck: is_given(words, "recheck-watches"),
        listens,
        answer,
        readers,
        idle_readers: has_idle_readers(words),
    })
}

/// Whether a number of readers is specified without a port for questions.
fn has_idle_readers(words: &ArgMatches<'_>) -> bool
    ensures { result ≡ are_idle (rows_in words.now) }
{
    value(words, "readers").is_some() && value(words, "answer").is_none()
}

/// How the manifests that a server begins with are read; none if it begins with a file of lines or with nothing.
/// Manifests exclude a file of lines, and `--namespace` requires manifests.
fn served_manifests(alloc: Global, words: &ArgMatches<'_>) -> Result<Option<Reading>, CommandFault>
    ensures { Reads result (served_in (rows_in words.now)) }
{
    if serves_manifests(words) {
        if value(words, "load").is_some() {
            return Err(CommandFault::Words);
        }
        return Ok(Some(reading(alloc, words, "manifests")?));
    }
    if value(words, "namespace").is_some() {
        return Err(CommandFault::Words);
    }
    Ok(None)
}

/// Whether a server begins with manifests, or with the default roles.
pub fn serves_manifests(words: &ArgMatches<'_>) -> bool
    ensures { result ≡ has_manifests (rows_in words.now) }
{
    value(words, "manifests").is_some() || is_given(words, "with-defaults")
}

fn replay_options(alloc: Global, words: &ArgMatches<'_>) -> Result<ReplayOptions, Memory>
    ensures { IfOk result (λ r. r ≡ replay_in (rows_in words.now)) }
{
    Ok(ReplayOptions {
        files: each(alloc, words, "FILE")?,
        write: is_given(words, "write"),
        strict: is_given(words, "strict"),
        junit: text(alloc, words, "junit")?,
    })
}

/// The policy of that name, how it is read, and what is printed.
fn asking(alloc: Global, words: &ArgMatches<'_>, policy: &str) -> Result<Asking, CommandFault>
    ensures { Reads result (asking_in policy.now (rows_in words.now)) }
{
    Ok(Asking {
        policy: needed(alloc, words, policy)?,
        reading: reading(alloc, words, "with")?,
        form: form(words).ok_or(CommandFault::Words)?,
    })
}

/// What is printed: as `--json` or `--format` says, else a table.
pub fn form(words: &ArgMatches<'_>) -> Option<Form>
    ensures { result ≡ form_in (rows_in words.now) }
{
    if is_given(words, "json") {
        return Some(Form::Json);
    }
    match value(words, "format") {
        None | Some("table") => Some(Form::Table),
        Some("json") => Some(Form::Json),
        Some("markdown") => Some(Form::Markdown),
        Some(_other) => None,
    }
}

fn compare_words(alloc: Global, words: &ArgMatches<'_>) -> Result<CompareWords, CommandFault>
    ensures { Reads result (compare_in (rows_in words.now)) }
{
    Ok(CompareWords {
        before: needed(alloc, words, "BEFORE")?,
        after: asking(alloc, words, "AFTER")?,
        usual_groups: is_given(words, "usual-groups"),
        atoms: is_given(words, "atoms"),
        lost: is_given(words, "lost"),
    })
}

fn what_words(alloc: Global, words: &ArgMatches<'_>) -> Result<WhatWords, CommandFault>
    ensures { Reads result (what_in (rows_in words.now)) }
{
    Ok(WhatWords {
        asking: asking(alloc, words, "POLICY")?,
        user: needed(alloc, words, "USER")?,
        groups: each(alloc, words, "GROUP")?,
    })
}

fn paths_words(alloc: Global, words: &ArgMatches<'_>) -> Result<PathsWords, CommandFault>
    ensures { Reads result (paths_in (rows_in words.now)) }
{
    Ok(PathsWords {
        asking: asking(alloc, words, "POLICY")?,
        to: text_or_empty(alloc, words, "to")?,
        without: each(alloc, words, "without")?,
    })
}

fn suggest_words(alloc: Global, words: &ArgMatches<'_>) -> Result<SuggestWords, CommandFault>
    ensures { Reads result (suggest_in (rows_in words.now)) }
{
    Ok(SuggestWords {
        uses: needed(alloc, words, "USES")?,
        log: is_given(words, "log"),
        policy: text_or_empty(alloc, words, "policy")?,
        reading: reading(alloc, words, "with")?,
        list: is_given(words, "list"),
    })
}

fn who_words(alloc: Global, words: &ArgMatches<'_>) -> Result<WhoWords, CommandFault>
    ensures { Reads result (who_in (rows_in words.now)) }
{
    Ok(WhoWords {
        asking: asking(alloc, words, "POLICY")?,
        question: who_question(alloc, words)?,
    })
}

/// The question that the words after `who` specify: a file of questions, or a verb and a resource, and not both.
fn who_question(alloc: Global, words: &ArgMatches<'_>) -> Result<WhoQuestion, CommandFault>
    ensures { Reads result (question_by (first_of (codes "questions") (rows_in words.now)) (rows_in words.now)) }
{
    match text(alloc, words, "questions")? {
        Some(_file) if has_question(words) => Err(CommandFault::Words),
        Some(file) => Ok(WhoQuestion::File(file)),
        None => Ok(WhoQuestion::Words(who_wanted(alloc, words)?)),
    }
}

/// Whether some word of a question is given.
fn has_question(words: &ArgMatches<'_>) -> bool
    ensures { result ≡ has_words (rows_in words.now) }
{
    value(words, "VERB").is_some()
        || value(words, "namespace").is_some()
        || value(words, "name").is_some()
        || is_given(words, "cluster")
}

/// The words of a question, which is about a namespace, about the whole cluster, or about all scopes.
fn who_wanted(alloc: Global, words: &ArgMatches<'_>) -> Result<WhoWanted, CommandFault>
    ensures { Reads result (wanted_in (rows_in words.now)) }
{
    if is_given(words, "cluster") && value(words, "namespace").is_some() {
        return Err(CommandFault::Words);
    }
    Ok(WhoWanted {
        verb: needed(alloc, words, "VERB")?,
        resource: needed(alloc, words, "RESOURCE")?,
        namespace: text_or_empty(alloc, words, "namespace")?,
        cluster: is_given(words, "cluster"),
        name: text_or_empty(alloc, words, "name")?,
    })
}

// ---- values of arguments

/// The value of that name, if it has one.
#[tactic(auto, using(crate::proofs::Values::first_value_rows))]
pub fn value<'a>(words: &ArgMatches<'a>, name: &str) -> Option<&'a str>
    ensures { option_map (λ s. s.now) result ≡ first_of name.now (rows_in words.now) }
{
    words.get_str(name)
}

/// Whether the flag of that name is given.
pub fn is_given(words: &ArgMatches<'_>, name: &str) -> bool
    ensures { result ≡ is_true (first_of name.now (rows_in words.now)) }
{
    match value(words, name) {
        Some(value) => value == "true",
        None => false,
    }
}

/// The value of that name, copied, if it has one.
fn text(alloc: Global, words: &ArgMatches<'_>, name: &str) -> Result<Option<Text>, Memory>
    ensures { IfOk result (λ text. text ≡ first_of name.now (rows_in words.now)) }
{
    match value(words, name) {
        Some(text) => Ok(Some(Text::copy_of(alloc, text)?)),
        None => Ok(None),
    }
}

/// The value of that name, copied.
fn needed(alloc: Global, words: &ArgMatches<'_>, name: &str) -> Result<Text, CommandFault>
    ensures { Reads result (first_of name.now (rows_in words.now)) }
{
    text(alloc, words, name)?.ok_or(CommandFault::Words)
}

/// The value of that name, copied; empty if it has none.
fn text_or_empty(alloc: Global, words: &ArgMatches<'_>, name: &str) -> Result<Text, Memory>
    ensures { IfOk result (λ text. text ≡ text_of name.now (rows_in words.now)) }
{
    Text::copy_of(alloc, value(words, name).unwrap_or(""))
}

/// The values of that name, copied, in the order of the words; none if it has none.
#[tactic(auto, using(crate::proofs::Values::raw_values_rows))]
fn each(alloc: Global, words: &ArgMatches<'_>, name: &str) -> Result<Sequence<Text>, Memory>
    ensures { IfOk result (λ texts. texts ≡ each_of name.now (rows_in words.now)) }
{
    match words.get_strs(name) {
        Some(texts) => copies(alloc, texts),
        None => Ok(Sequence::new(Vec::new(alloc))),
    }
}

fn copies(alloc: Global, texts: &[&str]) -> Result<Sequence<Text>, Memory>
    ensures { IfOk result (λ copies. copies ≡ map (λ text. text.now) texts.now) }
{
    let mut copies = Vec::new(alloc);
    for text in texts {
        copies.push(Text::copy_of(alloc, text)?)?;
    }
    Ok(Sequence::new(copies))
}

/// The number behind `--readers`, if it is 1 to 16; 2 if it is left out.
pub fn readers(words: &ArgMatches<'_>) -> Option<usize>
    ensures told { result ≡ readers_of (first_of (codes "readers") (rows_in words.now)) }
    ensures few { IfSome result (λ n. are_few n ≡ true) }
{
    match value(words, "readers") {
        Some(digits) => match number_within(digits, 2, 1, 16) {
            Some(readers) => usize::try_from(readers).ok(),
            None => None,
        },
        None => Some(2),
    }
}

/// The port for questions, if one is specified.
pub fn answer(words: &ArgMatches<'_>) -> Option<Option<u16>>
    ensures { result ≡ answer_of (first_of (codes "answer") (rows_in words.now)) }
{
    match value(words, "answer") {
        Some(digits) => port(digits, 1).map(Some),
        None => Some(None),
    }
}

/// The first revision that is specified, 0 if none is, and none if it is the clock's.
pub fn first(words: &ArgMatches<'_>) -> Option<Option<u64>>
    ensures told { result ≡ first_of_word (first_of (codes "first-revision") (rows_in words.now)) }
    ensures small { IfSome result (λ first. is_first first ≡ true) }
{
    match value(words, "first-revision") {
        Some("clock") => Some(None),
        Some(digits) => match number_within(digits, 15, 0, 281_474_976_710_650) {
            Some(first) => Some(Some(first)),
            None => None,
        },
        None => Some(Some(0)),
    }
}

// ---- ports

/// The ports and the identities that the words specify, 1 to 16 in their order.
#[tactic(auto, using(crate::proofs::Values::raw_values_rows))]
fn listens(alloc: Global, words: &ArgMatches<'_>) -> Result<Sequence<Listen>, CommandFault>
    ensures few { IfOk result (λ l. are_few (length l) ≡ true) }
    ensures told { Reads result (listens_in (rows_in words.now)) }
{
    let texts = words.get_strs("LISTEN").ok_or(CommandFault::Words)?;
    let listens = each_listen(alloc, texts, is_given(words, "free-ports"))?;
    let count = listens.as_slice().len();
    if count < 1 || count > PORTS {
        return Err(CommandFault::Words);
    }
    Ok(listens)
}

/// The port and the identity that each word specifies.
fn each_listen(alloc: Global, words: &[&str], free: bool) -> Result<Sequence<Listen>, CommandFault>
    ensures { Reads result (listens_of free (map (λ word. word.now) words.now)) }
{
    let mut listens = Vec::new(alloc);
    for word in words {
        listens.push(listen(alloc, word, free)?)?;
    }
    Ok(Sequence::new(listens))
}

/// `PORT=USER` or `PORT=USER,GROUP,..`, where PORT may be 0 if free ports are taken.
#[tactic(auto, unfolding(crate::specs::Listens::listen_of))]
pub fn listen(alloc: Global, word: &str, free: bool) -> Result<Listen, CommandFault>
    ensures { Reads result (listen_of free word.now) }
{
    let (digits, names) = parted(word).ok_or(CommandFault::Words)?;
    let port = port(digits, if free { 0 } else { 1 }).ok_or(CommandFault::Words)?;
    let identity = read_identity(alloc, names.as_bytes())?.ok_or(CommandFault::Words)?;
    Ok(Listen { port, identity })
}

/// The texts before and behind the first `=`.
fn parted(word: &str) -> Option<(&str, &str)>
    ensures { option_map {U = List ℕ × List ℕ} (λ p. (p.0.now, p.1.now)) result ≡ parted_of word.now }
{
    word.split_once('=')
}
