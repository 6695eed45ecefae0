//! The first item of the bytes: a whole request, a fault, or nothing yet.
ghost use Rattle.std.specs.Prelude.{◌≡◌, ◌-◌, ◌++◌, ◌≤◌, All, IfOk, IsUtf8, length, take, map};
ghost use Rattle.httparse.specs.Spans.{IsHeaderWithin, header_bytes, span_bytes};
ghost use Rattle.kapi_http.specs.Cut.{code_of, fault_of, first, header_of, request_of, settled, settled_within, word_of};
ghost use Rattle.kapi_http.specs.Fields.{fields_at};
ghost use Rattle.kapi_http.specs.Inbox.{accepted_of, decision_of};
ghost use Rattle.kapi_http.specs.Rules.{IsFramed};
ghost use Rattle.kapi_http.specs.Scan.{begin, scanned};
ghost use Rattle.kapi_http.specs.Tied.{AreKept, HasLines, HasParts, IsKnown, IsRead, told};

use crate::chunks::{Chunks, Ending, NO_CHUNKS, join, outcome, read_on};
use crate::fields::any_field_lists;
use crate::head::{HeadParts, NO_LINE, read_head};
use crate::message::{Header, HttpFault, HttpRequest, Refusal, StatusCode};
use crate::rules::{Framing, check};
use crate::scan::{Scan, has_ended, scan_on};
use httparse::spans::HeaderSpan;
use kapi_text::{Memory, Sequence, Text};
use std::alloc::Global;
use std::str;

/// The most bytes of a head, together with the empty lines before it and the empty line at its end.
pub const HEAD_LIMIT: usize = 16384;

/// The most lines between the request line and the empty line.
pub const LINE_LIMIT: usize = 64;

/// What is settled of the bytes at hand.
#[derive(Clone, Copy, PartialEq, Eq)]
pub enum Decision {
    /// The head is not whole yet.
    Waits,
    /// The request is refused; its head has so many bytes, if it is whole and within the limits, and else 0 bytes.
    Refused(usize, Refusal),
    /// The head has so many bytes, and the request so many in all.
    Accepted(usize, usize),
    /// The head has so many bytes, and the body comes in chunks, which were read so far.
    Chunked(usize, Chunks),
}

/// How far the bytes at hand were read.
#[derive(Clone, Copy, PartialEq, Eq)]
pub struct Progress {
    pub scan: Scan,
    pub decision: Decision,
}

/// Reads on if the head or the body of `kept` is not whole: `progress` is of its bytes before the last `more`.
pub fn continued(progress: Progress, kept: &[u8], more: usize, parts: &mut HeadParts) -> Progress
    requires more { more ≤ length kept.now }
    requires fits { length kept.now ≤ 2097152 }
    requires known { IsKnown progress parts.old (take (length kept.now - more) kept.now) }
    ensures { IsKnown result parts.new kept.now }
{
    match progress.decision {
        Decision::Waits => advance(progress.scan, kept, parts),
        Decision::Chunked(head, chunks) => Progress {
            scan: progress.scan,
            decision: Decision::Chunked(head, read_on(chunks, &kept[kept.len() - more..])),
        },
        Decision::Refused(_, _) => progress,
        Decision::Accepted(_, _) => progress,
    }
}

#[tactic(auto, using(crate::proofs::Settling::lines_read))]
/// Reads on from `scan`, which read the first `scan.at` bytes of `kept`, until the head is whole.
pub fn advance(scan: Scan, kept: &[u8], parts: &mut HeadParts) -> Progress
    requires within { scan.at ≤ length kept.now }
    requires limit { scan.at ≤ 16384 }
    requires fits { length kept.now ≤ 2097152 }
    requires read { scan ≡ scanned begin (take scan.at kept.now) }
    ensures decided { result.decision ≡ decision_of (settled kept.now) kept.now }
    ensures read { result.decision ≡ Decision.Waits → IsRead result kept.now }
    ensures parts { AreKept parts.new kept.now (settled kept.now) }
{
    let end = kept.len().min(HEAD_LIMIT);
    let scan = scan_on(scan, &kept[scan.at..end]);
    let decision = if has_ended(scan.place) {
        decide(&kept[..scan.at], &kept[scan.at..], scan.lines, parts)
    } else if kept.len() >= HEAD_LIMIT {
        parts.line = NO_LINE;
        Decision::Refused(0, Refusal::HeadTooLarge)
    } else {
        Decision::Waits
    };
    Progress { scan, decision }
}

// What a whole head and the body behind it settle; `lines` counts the request line too.
fn decide(head: &[u8], body: &[u8], lines: usize, parts: &mut HeadParts) -> Decision
    requires lines { HasLines lines head.now }
    requires small { length head.now ≤ 16384 }
    requires fits { length body.now ≤ 2097152 }
    ensures decided { result ≡ decision_of (settled_within lines head.now) (head.now ++ body.now) }
    ensures parts { AreKept parts.new head.now (settled_within lines head.now) }
{
    parts.line = NO_LINE;
    if lines > LINE_LIMIT + 1 {
        return Decision::Refused(0, Refusal::HeadTooLarge);
    }
    let Some(line) = read_head(head, &mut parts.fields) else {
        return Decision::Refused(head.len(), Refusal::NoHead);
    };
    parts.line = line;
    match check(head, line, &parts.fields[..line.headers]) {
        Ok((method, framing)) => {
            parts.method = method;
            accepted(head.len(), framing, body)
        }
        Err(why) => Decision::Refused(head.len(), why),
    }
}

// What a head of so many bytes that keeps the rules settles.
fn accepted(head: usize, framing: Framing, body: &[u8]) -> Decision
    requires size { IsFramed framing }
    requires small { head ≤ 16384 }
    requires fits { length body.now ≤ 2097152 }
    ensures { result ≡ accepted_of head framing body.now }
{
    match framing {
        Framing::Sized(size) => Decision::Accepted(head, head + size),
        Framing::Chunked => Decision::Chunked(head, read_on(NO_CHUNKS, body)),
    }
}

/// The first item of `kept`, of which `decision` is settled and whose head has these parts.
pub fn item(
    alloc: Global,
    kept: &[u8],
    decision: Decision,
    parts: &HeadParts,
) -> Result<Option<Result<HttpRequest, HttpFault>>, Memory>
    requires small { length kept.now ≤ 2097152 }
    requires settled { decision ≡ decision_of (settled kept.now) kept.now }
    requires parts { AreKept parts.now kept.now (settled kept.now) }
    ensures { IfOk result (λ o. o ≡ first kept.now) }
{
    match decision {
        Decision::Waits => Ok(None),
        Decision::Refused(head, why) => {
            let fault = fault(alloc, parts.line.method.of(&kept[..head]), why)?;
            Ok(Some(Err(fault)))
        }
        Decision::Accepted(head, total) => {
            if kept.len() < total {
                return Ok(None);
            }
            let body = Vec::from_slice(alloc, &kept[head..total])?;
            let request = request(alloc, &kept[..head], parts, body, total)?;
            Ok(Some(Ok(request)))
        }
        Decision::Chunked(head, chunks) => chunked_item(alloc, kept, head, chunks, parts),
    }
}

// The item of a request of `kept` whose body comes in chunks.
fn chunked_item(
    alloc: Global,
    kept: &[u8],
    head: usize,
    chunks: Chunks,
    parts: &HeadParts,
) -> Result<Option<Result<HttpRequest, HttpFault>>, Memory>
    requires small { length kept.now ≤ 2097152 }
    requires settled { Decision.Chunked head chunks ≡ decision_of (settled kept.now) kept.now }
    requires parts { AreKept parts.now kept.now (settled kept.now) }
    ensures { IfOk result (λ o. o ≡ first kept.now) }
{
    match outcome(chunks.spot) {
        Ending::Open => Ok(None),
        Ending::Closed => {
            let total = head + chunks.at;
            let body = join(alloc, &kept[head..total], chunks.sum)?;
            let request = request(alloc, &kept[..head], parts, body, total)?;
            Ok(Some(Ok(request)))
        }
        Ending::Refused(why) => {
            let fault = fault(alloc, parts.line.method.of(&kept[..head]), why)?;
            Ok(Some(Err(fault)))
        }
    }
}

// The fault of a request of that method, which is empty where no head was read.
fn fault(alloc: Global, method: &[u8], why: Refusal) -> Result<HttpFault, Memory>
    requires { IsUtf8 method.now }
    ensures { IfOk result (λ f. f ≡ fault_of method.now why) }
{
    Ok(HttpFault {
        code: code(why),
        word: word(alloc, method, why)?,
        no_body: method == b"HEAD".as_slice(),
    })
}

fn word(alloc: Global, method: &[u8], why: Refusal) -> Result<Text, Memory>
    requires { IsUtf8 method.now }
    ensures { IfOk result (λ t. t ≡ word_of why method.now) }
{
    match why {
        Refusal::NoHead => Text::copy_of(alloc, "head"),
        Refusal::Host => Text::copy_of(alloc, "host"),
        Refusal::Length => Text::copy_of(alloc, "length"),
        Refusal::Chunk => Text::copy_of(alloc, "chunk"),
        Refusal::Method => text(alloc, method),
        _ => Text::copy_of(alloc, ""),
    }
}

fn code(why: Refusal) -> StatusCode
    ensures { result ≡ code_of why }
{
    match why {
        Refusal::HeadTooLarge => StatusCode::RequestHeaderFieldsTooLarge,
        Refusal::NoHead => StatusCode::BadRequest,
        Refusal::Version => StatusCode::HttpVersionNotSupported,
        Refusal::Host => StatusCode::BadRequest,
        Refusal::Expectation => StatusCode::ExpectationFailed,
        Refusal::Method => StatusCode::MethodNotAllowed,
        Refusal::Length => StatusCode::BadRequest,
        Refusal::TransferEncoding => StatusCode::NotImplemented,
        Refusal::Chunk => StatusCode::BadRequest,
        Refusal::BodyTooLarge => StatusCode::ContentTooLarge,
    }
}

// The request of a head with these parts, and of its body; `total` is its length as sent.
fn request(
    alloc: Global,
    head: &[u8],
    parts: &HeadParts,
    body: Vec<u8>,
    total: usize,
) -> Result<HttpRequest, Memory>
    requires { HasParts head.now parts.now }
    ensures { IfOk result (λ r. r ≡ request_of (told head.now parts.now) parts.now.method body.items total) }
{
    let fields = &parts.fields[..parts.line.headers];
    let target = text(alloc, parts.line.path.of(head))?;
    let headers = headers(alloc, head, fields)?;
    Ok(HttpRequest {
        method: parts.method,
        target,
        headers: Sequence::new(headers),
        body: Sequence::new(body),
        close: any_field_lists(head, fields, b"connection", b"close"),
        length: total,
    })
}

fn headers(alloc: Global, head: &[u8], spans: &[HeaderSpan]) -> Result<Vec<Header>, Memory>
    requires within { All (IsHeaderWithin (length head.now)) spans.now }
    requires names { All (λ h. IsUtf8 (span_bytes head.now h.name)) spans.now }
    ensures { IfOk result (λ v. v.items ≡ map header_of (fields_at head.now spans.now)) }
{
    let mut headers = Vec::with_capacity(alloc, spans.len())?;
    for span in spans {
        headers.push(header(alloc, head, *span)?)?;
    }
    Ok(headers)
}

fn header(alloc: Global, head: &[u8], span: HeaderSpan) -> Result<Header, Memory>
    requires within { IsHeaderWithin (length head.now) span }
    requires name { IsUtf8 (span_bytes head.now span.name) }
    ensures { IfOk result (λ h. h ≡ header_of (header_bytes head.now span)) }
{
    let name = text(alloc, span.name.of(head))?;
    let value = Vec::from_slice(alloc, span.value.of(head))?;
    Ok(Header {
        name,
        value: Sequence::new(value),
    })
}

fn text(alloc: Global, bytes: &[u8]) -> Result<Text, Memory>
    requires { IsUtf8 bytes.now }
    ensures { IfOk result (λ t. t ≡ bytes.now) }
{
    match str::from_utf8(bytes) {
        Ok(text) => Text::copy_of(alloc, text),
        Err(_) => unreachable!(),
    }
}
