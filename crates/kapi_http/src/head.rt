//! A whole head as the request grammar reads it (RFC 9112 sections 2.2, 3 and 5).
ghost use Rattle.std.specs.Prelude.{◌≡◌, ◌≤◌, [], All, IfSome, IsNone, length, option_map, take};
ghost use Rattle.httparse.specs.Grammar.{ReadsRequest, RequestHead};
ghost use Rattle.httparse.specs.Spans.{IsHeaderWithin, IsWithin};
ghost use Rattle.kapi_http.specs.Head.{head_of, said, says};
ghost use Rattle.kapi_http.specs.Tied.{HasTexts};

use crate::message::Method;
use httparse::Status;
use httparse::spans::{EMPTY_HEADER_SPAN, HeaderSpan, RequestSpans, Span, parse_request};

/// Where the parts of a head stand in its bytes, and the method that it names.
#[derive(Drop)]
pub struct HeadParts {
    pub line: RequestSpans,
    pub method: Method,
    /// The spans of the fields, of which the line says how many there are.
    pub fields: [HeaderSpan; 64],
}

/// The spans of no request line, which names no method.
pub const NO_LINE: RequestSpans = RequestSpans {
    method: Span { start: 0, end: 0 },
    path: Span { start: 0, end: 0 },
    version: 0,
    headers: 0,
    len: 0,
};

/// The parts before any head was read.
pub const EMPTY_HEAD: HeadParts = HeadParts {
    line: NO_LINE,
    method: Method::Get,
    fields: [EMPTY_HEADER_SPAN; 64],
};

// The spans of the parts of `bytes`, if they are one request head and no more.
fn parse_head(bytes: &[u8], headers: &mut [HeaderSpan]) -> Option<RequestSpans>
    requires { (h : RequestHead) → ReadsRequest bytes.now h [] → length h.fields ≤ length headers.old }
    ensures some { IfSome result (λ r. (h : RequestHead) × ReadsRequest bytes.now h [] × (said bytes.now r (take r.headers headers.new) ≡ says h)) }
    ensures none { IsNone result → (h : RequestHead) → ¬ (ReadsRequest bytes.now h []) }
    ensures method { IfSome result (λ r. IsWithin (length bytes.now) r.method) }
    ensures target { IfSome result (λ r. IsWithin (length bytes.now) r.path) }
    ensures count { IfSome result (λ r. r.headers ≤ length headers.new) }
    ensures fields { IfSome result (λ r. All (IsHeaderWithin (length bytes.now)) (take r.headers headers.new)) }
{
    match parse_request(bytes, headers) {
        Ok(Status::Complete(line)) => {
            if line.len == bytes.len() {
                Some(line)
            } else {
                None
            }
        }
        _ => None,
    }
}

/// The spans of the parts of `bytes`, if they are one request head and no more: what they say is `head_of` of the
/// bytes.
pub fn read_head(bytes: &[u8], headers: &mut [HeaderSpan]) -> Option<RequestSpans>
    requires { (h : RequestHead) → ReadsRequest bytes.now h [] → length h.fields ≤ length headers.old }
    ensures exact { option_map (λ r. said bytes.now r (take r.headers headers.new)) result ≡ head_of bytes.now }
    ensures texts { IfSome result (λ r. HasTexts bytes.now r (take r.headers headers.new)) }
    ensures method { IfSome result (λ r. IsWithin (length bytes.now) r.method) }
    ensures target { IfSome result (λ r. IsWithin (length bytes.now) r.path) }
    ensures count { IfSome result (λ r. r.headers ≤ length headers.new) }
    ensures fields { IfSome result (λ r. All (IsHeaderWithin (length bytes.now)) (take r.headers headers.new)) }
{
    parse_head(bytes, headers)
}
