//! Why a line of a transcript has no known form.
use kapi_text::Memory;
use kapi_transcripts::{Form, parse_form};
use std::alloc::Global;

/// The words that a line of a transcript may begin with.
const FORMS: &str =
    "no line begins so; there are load, manifests, kinds, recheck, begin, as, GET, POST, PUT, PATCH, DELETE, pump, =, ==, ~, >, and the events open, feed, serve, pump, turn and close";

/// Why a line of a transcript has no known form, where it stands in its case; it is no event of a script for this
/// reason.
pub fn form_reason(
    alloc: Global,
    line: &[u8],
    reason: &'static str,
) -> Result<&'static str, Memory> {
    match parse_form(alloc, line)? {
        Form::Request(_request) => Ok(
            "nobody asks: 'as USER' or 'as USER,GROUP,..' comes before the first request of a case",
        ),
        Form::Pump => Ok(
            "nobody asks: 'as USER' or 'as USER,GROUP,..' comes before the first pump of a case",
        ),
        Form::Field => Ok(
            "it is read as a header field, and there is no request directly above it",
        ),
        Form::Recheck => Ok("recheck comes before the first event of a case"),
        Form::Kinds(_name) => Ok("kinds comes before the first event of a case"),
        Form::Event => Ok(event_reason(line, reason)),
        Form::Actor(_) | Form::Begin(_) | Form::Expectation(_) => Ok(FORMS),
    }
}

/// Why a line that begins with no word of a transcript is no event of a script either.
fn event_reason(line: &[u8], reason: &'static str) -> &'static str {
    if line.ends_with(b"\r") {
        return "the line ends with CR LF; a line of a transcript ends with LF alone";
    }
    match line {
        [b'=', b'=', ..] | [b'~', ..] | [b'>', ..] => {
            "a space and a text are wanted behind the sign: == BODY, ~ TEXT or > LINE"
        }
        [b'=', ..] => "a code of three digits is wanted: = CODE or = CODE TEXT",
        b"GET" | b"POST" | b"PUT" | b"PATCH" | b"DELETE" => {
            "a target is wanted: METHOD TARGET or METHOD TARGET BODY"
        }
        b"as" => "an identity is wanted: as USER or as USER,GROUP,..",
        b"load" => "a file is wanted: load FILE",
        b"manifests" => "a file or folder is wanted: manifests FILE",
        b"kinds" => "a file or folder is wanted: kinds FILE",
        _ if is_begun_event(line) => reason,
        _ => FORMS,
    }
}

/// Whether the line begins with the word of an event.
fn is_begun_event(line: &[u8]) -> bool {
    line.starts_with(b"open")
        || line.starts_with(b"feed")
        || line.starts_with(b"serve")
        || line.starts_with(b"pump")
        || line.starts_with(b"close")
}
