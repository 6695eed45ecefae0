//! What a transcript wants of an answer.
ghost use Rattle.std.specs.Prelude.{◌≡◌, ◌++◌, IfOk, OnOk};
ghost use Rattle.kapi_transcripts.specs.Wants as wants;
ghost use Rattle.kapi_transcripts.specs.Wants.{is_met as is_met_of, reply_of, shows as shows_of, unquoted as unquoted_of, wanted_of};
ghost use Rattle.kapi_transcripts.specs.Sent.{sent_of};

use crate::sent::{body, sent};
use kapi_lines::copy_of;
use kapi_text::{Memory, Sequence, are_digits};
use std::alloc::Global;

/// What is wanted of an answer.
#[derive(Drop)]
pub enum Expected {
    /// `= CODE [TEXT]`: a reply of that code, with the text in it.
    Reply(Sequence<u8>, Sequence<u8>),
    /// `== BODY`: a reply with this body.
    Body(Sequence<u8>),
    /// `~ TEXT`: bytes with the text in them.
    Text(Sequence<u8>),
    /// `> LINE`: exactly this line.
    Line(Sequence<u8>),
}

/// What a line wants; nothing if it is of another form.
#[tactic(auto, unfolding(crate::specs::Wants::wanted_of))]
pub fn parse_wanted(alloc: Global, line: &[u8]) -> Result<Option<Expected>, Memory>
    ensures { IfOk result (λ w. w ≡ wanted_of line.now) }
{
    if line.starts_with(b"= ") {
        return parse_reply(alloc, &line[2..]);
    }
    if line.starts_with(b"== ") {
        return Ok(Some(Expected::Body(copy_of(alloc, &line[3..])?)));
    }
    if line.starts_with(b"~ ") {
        return Ok(Some(Expected::Text(copy_of(alloc, &line[2..])?)));
    }
    if line.starts_with(b"> ") {
        return Ok(Some(Expected::Line(copy_of(alloc, &line[2..])?)));
    }
    Ok(None)
}

/// `CODE` or `CODE TEXT`.
fn parse_reply(alloc: Global, rest: &[u8]) -> Result<Option<Expected>, Memory>
    ensures { IfOk result (λ w. w ≡ reply_of rest.now) }
{
    if rest.len() < 3 {
        return Ok(None);
    }
    let (code, behind) = rest.split_at(3);
    if are_digits(code) {
        reply_with(alloc, code, behind)
    } else {
        Ok(None)
    }
}

/// A reply of that code, with the text behind a space.
fn reply_with(alloc: Global, code: &[u8], behind: &[u8]) -> Result<Option<Expected>, Memory>
    ensures { IfOk result (λ w. w ≡ wants.reply_with code.now behind.now) }
{
    match behind {
        [] => Ok(Some(Expected::Reply(copy_of(alloc, code)?, copy_of(alloc, behind)?))),
        [first, text @ ..] => {
            if *first == b' ' {
                Ok(Some(Expected::Reply(copy_of(alloc, code)?, copy_of(alloc, text)?)))
            } else {
                Ok(None)
            }
        }
    }
}

/// Whether the line of an answer is as wanted.
pub fn is_met(alloc: Global, wanted: &Expected, line: &[u8]) -> Result<bool, Memory>
    ensures { IfOk result (λ b. b ≡ is_met_of wanted.now line.now) }
{
    match wanted {
        Expected::Line(text) => Ok(line == text.as_slice()),
        _ => is_met_by_sent(alloc, wanted, line),
    }
}

/// Whether the bytes that an answer sent are as wanted; nothing is met if it sent none.
fn is_met_by_sent(alloc: Global, wanted: &Expected, line: &[u8]) -> Result<bool, Memory>
    ensures { IfOk result (λ b. b ≡ wants.is_met_by wanted.now (sent_of line.now)) }
{
    match sent(alloc, line)? {
        Some(bytes) => meets(alloc, wanted, bytes.as_slice()),
        None => Ok(false),
    }
}

/// Whether bytes that were sent are as wanted.
fn meets(alloc: Global, wanted: &Expected, bytes: &[u8]) -> Result<bool, Memory>
    ensures { IfOk result (λ b. b ≡ wants.meets wanted.now bytes.now) }
{
    match wanted {
        Expected::Reply(code, text) => {
            if has_code(bytes, code.as_slice()) {
                shows(alloc, bytes, text.as_slice())
            } else {
                Ok(false)
            }
        }
        Expected::Body(text) => Ok(has_body(bytes, text.as_slice())),
        Expected::Text(text) => shows(alloc, bytes, text.as_slice()),
        Expected::Line(_text) => Ok(false),
    }
}

/// Whether the bytes are a reply of that code.
fn has_code(bytes: &[u8], code: &[u8]) -> bool
    ensures { result ≡ wants.has_code bytes.now code.now }
{
    bytes.starts_with(b"HTTP/1.1 ") && bytes[9..].starts_with(code)
}

/// Whether the bytes are a reply with that body.
fn has_body(bytes: &[u8], text: &[u8]) -> bool
    ensures { result ≡ wants.has_body bytes.now text.now }
{
    match body(bytes) {
        Some(body) => bytes.starts_with(b"HTTP/1.1 ") && body == text,
        None => false,
    }
}

/// Whether the bytes contain the text, as they are or without the backslashes before their quotes.
fn shows(alloc: Global, bytes: &[u8], text: &[u8]) -> Result<bool, Memory>
    ensures { IfOk result (λ b. b ≡ shows_of bytes.now text.now) }
{
    if contains(bytes, text) {
        return Ok(true);
    }
    let unquoted = unquoted(alloc, bytes)?;
    Ok(contains(unquoted.as_slice(), text))
}

/// Whether the bytes contain the text.
fn contains(bytes: &[u8], text: &[u8]) -> bool
    ensures { result ≡ wants.contains bytes.now text.now }
{
    let mut rest = bytes;
    while let [_first, tail @ ..] = rest {
        if rest.starts_with(text) {
            return true;
        }
        rest = tail;
    }
    text.is_empty()
}

/// The bytes without the backslashes before a quote.
fn unquoted(alloc: Global, bytes: &[u8]) -> Result<Vec<u8>, Memory>
    ensures { IfOk result (λ v. v.items ≡ unquoted_of bytes.now) }
{
    let mut text = Vec::new(alloc);
    let mut rest = bytes;
    while let [byte, tail @ ..] = rest {
        push_unquoted(&mut text, *byte, tail)?;
        rest = tail;
    }
    Ok(text)
}

fn push_unquoted(text: &mut Vec<u8>, byte: u8, tail: &[u8]) -> Result<(), Memory>
    ensures { OnOk result (text.new.items ≡ text.old.items ++ wants.kept_byte byte tail.now) }
{
    if byte == b'\\' && tail.starts_with(b"\"") {
        return Ok(());
    }
    text.push(byte)?;
    Ok(())
}
