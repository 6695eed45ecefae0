//! Rewriting an expectation, so that it expects the actual answer.
ghost use Rattle.std.specs.Prelude.{◌≡◌, IfOk, option_map};
ghost use Rattle.kapi_transcripts.specs.Corrections as corrections;
ghost use Rattle.kapi_transcripts.specs.Corrections.{corrected as corrected_of, exactly as exactly_of};

use crate::sent::{body, sent};
use crate::wanted::Expected;
use kapi_text::{Memory, Sequence, are_digits};
use std::alloc::Global;

/// An expectation of the actual answer: of its code or its body, if that is what `wanted` expects and the answer has
/// it, else of the exact answer.
pub fn corrected(alloc: Global, wanted: &Expected, answer: &[u8]) -> Result<Sequence<u8>, Memory>
    ensures { IfOk result (λ s. s ≡ corrected_of wanted.now answer.now) }
{
    match sent(alloc, answer)? {
        Some(bytes) => corrected_by(alloc, wanted, bytes.as_slice(), answer),
        None => exactly(alloc, answer),
    }
}

/// The line that wants what was sent.
fn corrected_by(
    alloc: Global,
    wanted: &Expected,
    bytes: &[u8],
    answer: &[u8],
) -> Result<Sequence<u8>, Memory>
    ensures { IfOk result (λ s. s ≡ corrections.corrected_by wanted.now bytes.now answer.now) }
{
    match wanted {
        Expected::Reply(_code, _text) => word_or(alloc, b"= ", code_in(bytes), answer),
        Expected::Body(_text) => word_or(alloc, b"== ", body_in(bytes), answer),
        Expected::Text(_text) => exactly(alloc, answer),
        Expected::Line(_text) => exactly(alloc, answer),
    }
}

/// A sign and a word, or the line that wants exactly this answer, if there is no word.
fn word_or(
    alloc: Global,
    sign: &[u8],
    word: Option<&[u8]>,
    answer: &[u8],
) -> Result<Sequence<u8>, Memory>
    ensures { IfOk result (λ s. s ≡ corrections.word_or sign.now (option_map (λ w. w.now) word.entry) answer.now) }
{
    match word {
        Some(word) => signed(alloc, sign, word),
        None => exactly(alloc, answer),
    }
}

/// The line that wants exactly this answer.
pub fn exactly(alloc: Global, answer: &[u8]) -> Result<Sequence<u8>, Memory>
    ensures { IfOk result (λ s. s ≡ exactly_of answer.now) }
{
    signed(alloc, b"> ", answer)
}

fn signed(alloc: Global, sign: &[u8], word: &[u8]) -> Result<Sequence<u8>, Memory>
    ensures { IfOk result (λ s. s ≡ corrections.signed sign.now word.now) }
{
    let mut line = Vec::new(alloc);
    line.extend_from_slice(sign)?;
    line.extend_from_slice(word)?;
    Ok(Sequence::new(line))
}

/// The code of a reply: the three digits behind its version.
fn code_in(bytes: &[u8]) -> Option<&[u8]>
    ensures { option_map (λ s. s.now) result ≡ corrections.code_in bytes.now }
{
    if bytes.starts_with(b"HTTP/1.1 ") {
        digits_in(&bytes[9..])
    } else {
        None
    }
}

/// The three digits that a text begins with.
fn digits_in(text: &[u8]) -> Option<&[u8]>
    ensures { option_map (λ s. s.now) result ≡ corrections.digits_in text.now }
{
    if text.len() < 3 {
        return None;
    }
    let digits = text.split_at(3).0;
    if are_digits(digits) {
        Some(digits)
    } else {
        None
    }
}

/// The body of a reply that stands on one line.
fn body_in(bytes: &[u8]) -> Option<&[u8]>
    ensures { option_map (λ s. s.now) result ≡ corrections.body_in bytes.now }
{
    if !bytes.starts_with(b"HTTP/1.1 ") {
        return None;
    }
    match body(bytes) {
        Some(body) if is_line(body) => Some(body),
        _ => None,
    }
}

/// Whether a text stands on one line.
fn is_line(text: &[u8]) -> bool
    ensures { result ≡ corrections.is_line text.now }
{
    text.iter().all(|byte| *byte != b'\n' && *byte != b'\r')
}
