ghost use Rattle.std.specs.Prelude.{◌≡◌, ◌++◌, ℕ, List, IfOk, OnOk, map, option_map};
ghost use Rattle.std.specs.Io.KnownBytes.{Appends};
ghost use Rattle.kapi_lines.specs.Lines.{line_of};
ghost use Rattle.kapi_transcripts.specs.Requests as asks;
ghost use Rattle.kapi_transcripts.specs.Fields.{field_line, field_lines};
ghost use Rattle.kapi_transcripts.specs.Requests.{feed_line as feed_line_of, media_of, number_line, request_line as request_line_of, request_of, request_text};

use crate::field::{is_field, place_of};
use kapi_lines::{Line, copy_of, write_escaped};
use kapi_text::{Memory, Sequence};
use std::alloc::{AllocError, Global};
use std::io::{self, Write};

/// A request as a transcript writes it.
#[derive(Drop)]
pub struct Request {
    pub method: Sequence<u8>,
    pub target: Sequence<u8>,
    pub body: Sequence<u8>,
}

/// The method that a line begins with, and the text behind it and a space.
#[tactic(auto, unfolding(crate::specs::Requests::request_line))]
pub fn request_line(line: &[u8]) -> Option<(&'static [u8], &[u8])>
    ensures { option_map {U = List ℕ × List ℕ} (λ p. (p.0.now, p.1.now)) result ≡ request_line_of line.now }
{
    if line.starts_with(b"GET ") {
        return Some((b"GET".as_slice(), &line[4..]));
    }
    if line.starts_with(b"POST ") {
        return Some((b"POST".as_slice(), &line[5..]));
    }
    if line.starts_with(b"PUT ") {
        return Some((b"PUT".as_slice(), &line[4..]));
    }
    if line.starts_with(b"PATCH ") {
        return Some((b"PATCH".as_slice(), &line[6..]));
    }
    if line.starts_with(b"DELETE ") {
        return Some((b"DELETE".as_slice(), &line[7..]));
    }
    None
}

/// The request of that method with the target and the body behind it, parted at the first space.
pub fn parse_request(alloc: Global, method: &[u8], rest: &[u8]) -> Result<Request, Memory>
    ensures { IfOk result (λ r. r ≡ request_of method.now rest.now) }
{
    let (target, body) = parted(rest);
    Ok(Request {
        method: copy_of(alloc, method)?,
        target: copy_of(alloc, target)?,
        body: copy_of(alloc, body)?,
    })
}

/// The texts before and behind the first space.
fn parted(text: &[u8]) -> (&[u8], &[u8])
    ensures target { result.0.now ≡ asks.target_in text.now }
    ensures body { result.1.now ≡ asks.body_in text.now }
{
    match place_of(text, b' ') {
        Some(at) => (text.split_at(at).0, text.split_at(at + 1).1),
        None => (text, b"".as_slice()),
    }
}

/// The header field that a method needs beside the others.
fn media(method: &[u8]) -> &'static [u8]
    ensures { result.now ≡ media_of method.now }
{
    if method == b"PATCH".as_slice() {
        b"Content-Type: application/merge-patch+json\r\n".as_slice()
    } else {
        b"".as_slice()
    }
}

/// The bytes of a request, with the header fields on the lines that follow.
pub fn request_bytes(
    alloc: Global,
    request: &Request,
    later: &[Line<'_>],
) -> Result<Vec<u8>, Memory>
    ensures { IfOk result (λ v. v.items ≡ request_text request.now (map line_of later.now)) }
{
    let mut text = Vec::new(alloc);
    text.extend_from_slice(request.method.as_slice())?;
    text.extend_from_slice(b" ")?;
    text.extend_from_slice(request.target.as_slice())?;
    text.extend_from_slice(b" HTTP/1.1\r\nHost: a\r\n")?;
    text.extend_from_slice(media(request.method.as_slice()))?;
    push_fields(&mut text, later)?;
    push_number(
        &mut text,
        b"Content-Length: ",
        request.body.as_slice().len(),
    )?;
    text.extend_from_slice(b"\r\n\r\n")?;
    text.extend_from_slice(request.body.as_slice())?;
    Ok(text)
}

/// Appends the header fields at the front.
fn push_fields(text: &mut Vec<u8>, later: &[Line<'_>]) -> Result<(), Memory>
    ensures { OnOk result (text.new.items ≡ text.old.items ++ field_lines (map line_of later.now)) }
{
    let mut rest = later;
    while let [line, tail @ ..] = rest {
        if !is_field(line.text) {
            return Ok(());
        }
        push_field(text, line.text)?;
        rest = tail;
    }
    Ok(())
}

fn push_field(text: &mut Vec<u8>, field: &[u8]) -> Result<(), Memory>
    ensures { OnOk result (text.new.items ≡ text.old.items ++ field_line field.now) }
{
    text.extend_from_slice(field)?;
    text.extend_from_slice(b"\r\n")?;
    Ok(())
}

/// Appends a word and a number.
pub fn push_number(text: &mut Vec<u8>, word: &[u8], number: usize) -> Result<(), Memory>
    ensures { OnOk result (text.new.items ≡ text.old.items ++ number_line word.now number) }
{
    match write_number(text, word, number) {
        Ok(()) => Ok(()),
        Err(_full) => Err(AllocError),
    }
}

#[tactic(auto, using(kapi_lines::proofs::Appending::appends_more))]
fn write_number<W: Write>(writer: &mut W, word: &[u8], number: usize) -> io::Result<()>
    ensures { OnOk result (Appends (W.contents writer.old) (W.contents writer.new) (number_line word.now number)) }
{
    writer.write_all(word)?;
    write!(writer, "{}", number)
}

/// The line of a script that feeds bytes to a connection.
pub fn feed_line(alloc: Global, connection: usize, bytes: &[u8]) -> Result<Sequence<u8>, Memory>
    ensures { IfOk result (λ s. s ≡ feed_line_of connection bytes.now) }
{
    let mut text = Vec::new(alloc);
    push_number(&mut text, b"feed ", connection)?;
    text.extend_from_slice(b" ")?;
    push_escaped(&mut text, bytes)?;
    Ok(Sequence::new(text))
}

fn push_escaped(text: &mut Vec<u8>, bytes: &[u8]) -> Result<(), Memory>
    ensures { OnOk result (text.new.items ≡ text.old.items ++ asks.escaped_text bytes.now) }
{
    match write_escaped(text, bytes) {
        Ok(()) => Ok(()),
        Err(_full) => Err(AllocError),
    }
}

/// A line of a script: a word and the number of a connection.
pub fn word_line(alloc: Global, word: &[u8], connection: usize) -> Result<Sequence<u8>, Memory>
    ensures { IfOk result (λ s. s ≡ number_line word.now connection) }
{
    let mut text = Vec::new(alloc);
    push_number(&mut text, word, connection)?;
    Ok(Sequence::new(text))
}
