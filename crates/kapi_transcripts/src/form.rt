//! What a line of a transcript is.
ghost use Rattle.std.specs.Prelude.{◌≡◌, IfOk};
ghost use Rattle.kapi_transcripts.specs.Forms as forms;
ghost use Rattle.kapi_transcripts.specs.Forms.{form_of, line_form_of};
ghost use Rattle.std.specs.List.{list_all};
ghost use Rattle.kapi_lines.specs.Identities.{names_in};
ghost use Rattle.kapi_transcripts.specs.Names as named;
ghost use Rattle.kapi_transcripts.specs.Names.{is_name as is_name_of};

use crate::field::is_field;
use crate::request::{Request, parse_request, request_line};
use crate::wanted::{Expected, parse_wanted};
use kapi_lines::{as_text, copy_of};
use kapi_text::{Memory, Sequence};
use std::alloc::Global;

/// What a case begins with, by a line.
#[derive(Drop)]
pub enum Source {
    /// `begin`: the opening objects alone.
    Opening,
    /// `load FILE`: a file of objects, one a line.
    Lines(Sequence<u8>),
    /// `manifests FILE`: a file of manifests, or a folder of such files.
    Manifests(Sequence<u8>),
    /// `load defaults`: Kubernetes' user-facing cluster roles, beneath files of manifests.
    Defaults,
}

/// The form of a line.
#[derive(Drop)]
pub enum Form {
    /// A new machine.
    Begin(Source),
    /// `as USER` or `as USER,GROUP,..`: the connection of that identity. No name is empty, or begins or ends with white
    /// space.
    Actor(Sequence<u8>),
    /// `METHOD TARGET` or `METHOD TARGET BODY`: a request on the connection that was taken last.
    Request(Request),
    /// `Name: value`: a further header field of the request above.
    Field,
    /// `pump`: the next event of the connection's watch.
    Pump,
    /// `recheck`: the rights of watches are rechecked in this case.
    Recheck,
    /// `kinds FILE`: the kinds of that file are served in this case.
    Kinds(Sequence<u8>),
    /// What is wanted of the last answer.
    Expectation(Expected),
    /// A line of a script.
    Event,
}

/// The form of a line that is neither empty nor a comment.
#[tactic(auto, unfolding(crate::specs::Forms::form_of))]
pub fn parse_form(alloc: Global, line: &[u8]) -> Result<Form, Memory>
    ensures { IfOk result (λ f. f ≡ form_of line.now) }
{
    if line == b"begin".as_slice() {
        return Ok(Form::Begin(Source::Opening));
    }
    if line == b"pump".as_slice() {
        return Ok(Form::Pump);
    }
    if line == b"recheck".as_slice() {
        return Ok(Form::Recheck);
    }
    if line == b"load defaults".as_slice() {
        return Ok(Form::Begin(Source::Defaults));
    }
    if line.starts_with(b"load ") {
        return Ok(Form::Begin(Source::Lines(copy_of(alloc, &line[5..])?)));
    }
    if line.starts_with(b"manifests ") {
        return Ok(Form::Begin(Source::Manifests(copy_of(alloc, &line[10..])?)));
    }
    if line.starts_with(b"kinds ") {
        return Ok(Form::Kinds(copy_of(alloc, &line[6..])?));
    }
    if line.starts_with(b"as ") {
        return Ok(actor_form(copy_of(alloc, &line[3..])?));
    }
    match parse_wanted(alloc, line)? {
        Some(wanted) => Ok(Form::Expectation(wanted)),
        None => line_form(alloc, line),
    }
}

/// An identity, or a line of no known form if a name is none.
fn actor_form(names: Sequence<u8>) -> Form
    ensures { result ≡ forms.actor_form names }
{
    if are_names(names.as_slice()) {
        Form::Actor(names)
    } else {
        Form::Event
    }
}

/// The form of a line that begins with no word of a transcript.
fn line_form(alloc: Global, line: &[u8]) -> Result<Form, Memory>
    ensures { IfOk result (λ f. f ≡ line_form_of line.now) }
{
    match request_line(line) {
        Some((method, rest)) => Ok(Form::Request(parse_request(alloc, method, rest)?)),
        None => Ok(plain_form(line)),
    }
}

/// A header field, or a line of a script.
fn plain_form(line: &[u8]) -> Form
    ensures { result ≡ forms.plain_form line.now }
{
    if is_field(line) {
        Form::Field
    } else {
        Form::Event
    }
}

/// Whether no name is empty, or begins or ends with white space. Texts that are no UTF-8 are refused elsewhere.
#[tactic(auto, unfolding(crate::specs::Names::are_names))]
pub fn are_names(names: &[u8]) -> bool
    ensures { result ≡ named.are_names names.now }
{
    match as_text(names) {
        Some(names) => are_names_in(names),
        None => true,
    }
}

fn are_names_in(names: &str) -> bool
    ensures { result ≡ list_all (λ name. is_name_of name) (names_in names.now) }
{
    names.split(',').all(|name| is_name(name.as_bytes()))
}

/// Whether a name is not empty and has no white space at its ends.
fn is_name(name: &[u8]) -> bool
    ensures { result ≡ is_name_of name.now }
{
    !name.is_empty() && !is_white(name[0]) && !is_white(name[name.len() - 1])
}

fn is_white(byte: u8) -> bool
    ensures { result ≡ named.is_white byte }
{
    byte == b' ' || byte == b'\t' || byte == b'\r'
}
