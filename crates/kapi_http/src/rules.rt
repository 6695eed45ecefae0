//! The rules that a head must keep to be served, in the order of the checks.
ghost use Rattle.std.specs.Prelude.{◌≡◌, ◌≤◌, ◌+◌, ◌*◌, All, IfOk, length, min};
ghost use Rattle.httparse.specs.Spans.{IsHeaderWithin, IsWithin};
ghost use Rattle.kapi_http.specs.Fields.{fields_at};
ghost use Rattle.kapi_http.specs.Head.{said};
ghost use Rattle.kapi_http.specs.Rules.{IsFramed, checked, coding as coding_of, framing as framing_of, content_length as size_of, method_named as method_of};

use crate::fields::{count_named, eq_ignore_ascii_case, first_named};
use crate::message::{Method, Refusal};
use httparse::spans::{HeaderSpan, RequestSpans};

/// The most bytes that a body may have.
pub const BODY_LIMIT: usize = 1_048_576;

/// How the end of a body is found.
#[derive(Clone, Copy, PartialEq, Eq)]
pub enum Framing {
    /// The body has so many bytes.
    Sized(usize),
    /// The body comes in chunks.
    Chunked,
}

/// The method, and how the body's end is found.
#[tactic(auto, unfolding(crate::specs::Rules::checked))]
pub fn check(
    bytes: &[u8],
    line: RequestSpans,
    headers: &[HeaderSpan],
) -> Result<(Method, Framing), Refusal>
    requires method { IsWithin (length bytes.now) line.method }
    requires fields { All (IsHeaderWithin (length bytes.now)) headers.now }
    ensures exact { result ≡ checked (said bytes.now line headers.now) }
    ensures within { IfOk result (λ r. IsFramed r.1) }
{
    if line.version == 0 {
        return Err(Refusal::Version);
    }
    if count_named(bytes, headers, b"host") != 1 {
        return Err(Refusal::Host);
    }
    if count_named(bytes, headers, b"expect") != 0 {
        return Err(Refusal::Expectation);
    }
    let Some(method) = method_named(line.method.of(bytes)) else {
        return Err(Refusal::Method);
    };
    let framing = body_framing(bytes, headers)?;
    Ok((method, framing))
}

// The method of that name, which is case-sensitive (RFC 9110 section 9.1).
#[tactic(auto, unfolding(crate::specs::Rules::method_named))]
fn method_named(name: &[u8]) -> Option<Method>
    ensures { result ≡ method_of name.now }
{
    if name == b"GET".as_slice() {
        Some(Method::Get)
    } else if name == b"POST".as_slice() {
        Some(Method::Post)
    } else if name == b"PUT".as_slice() {
        Some(Method::Put)
    } else if name == b"PATCH".as_slice() {
        Some(Method::Patch)
    } else if name == b"DELETE".as_slice() {
        Some(Method::Delete)
    } else {
        None
    }
}

// How the end of the body behind the head is found (RFC 9112 section 6).
#[tactic(auto, unfolding(crate::specs::Rules::framing, crate::specs::Rules::framing_by))]
fn body_framing(bytes: &[u8], headers: &[HeaderSpan]) -> Result<Framing, Refusal>
    requires { All (IsHeaderWithin (length bytes.now)) headers.now }
    ensures exact { result ≡ framing_of (fields_at bytes.now headers.now) }
    ensures within { IfOk result IsFramed }
{
    let codings = count_named(bytes, headers, b"transfer-encoding");
    let lengths = count_named(bytes, headers, b"content-length");
    if codings > 0 && lengths > 0 {
        return Err(Refusal::Length);
    }
    if codings > 1 {
        return Err(Refusal::TransferEncoding);
    }
    if lengths > 1 {
        return Err(Refusal::Length);
    }
    if let Some(coding) = first_named(bytes, headers, b"transfer-encoding") {
        return transfer_coding(coding);
    }
    match first_named(bytes, headers, b"content-length") {
        Some(value) => content_length(value),
        None => Ok(Framing::Sized(0)),
    }
}

// The only transfer coding that is read (RFC 9112 section 7.1).
fn transfer_coding(value: &[u8]) -> Result<Framing, Refusal>
    ensures exact { result ≡ coding_of value.now }
    ensures within { IfOk result IsFramed }
{
    if eq_ignore_ascii_case(value, b"chunked") {
        Ok(Framing::Chunked)
    } else {
        Err(Refusal::TransferEncoding)
    }
}

// One or more digits and nothing else, and a number within the limit (RFC 9110 section 8.6).
#[tactic(auto, unfolding(crate::specs::Rules::content_length))]
fn content_length(value: &[u8]) -> Result<Framing, Refusal>
    ensures exact { result ≡ size_of value.now }
    ensures within { IfOk result IsFramed }
{
    if value.is_empty() {
        return Err(Refusal::Length);
    }
    let mut number = 0;
    for byte in value {
        if !byte.is_ascii_digit() {
            return Err(Refusal::Length);
        }
        number = capped(number, *byte - b'0');
    }
    if number > BODY_LIMIT {
        return Err(Refusal::BodyTooLarge);
    }
    Ok(Framing::Sized(number))
}

// The number with one digit more, or the first number above the limit.
fn capped(number: usize, digit: u8) -> usize
    requires small { number ≤ 1048577 }
    requires digit { digit ≤ 9 }
    ensures { result ≡ min (number * 10 + digit) 1048577 }
{
    (number * 10 + digit as usize).min(BODY_LIMIT + 1)
}
