//! Replies with JSON bodies, and the replies to refused requests.
ghost use Rattle.std.specs.Prelude.{◌≡◌, Some, IfOk};
ghost use Rattle.std.specs.Option.{option_map};
ghost use Rattle.serde_json.specs.Written.{compact_text};
ghost use Rattle.kapi_reply.specs.Refusals as table;
ghost use Rattle.kapi_reply.specs.Replies as replies;
ghost use Rattle.kapi_reply.specs.Replies.{json_reply, sent};
ghost use Rattle.kapi_reply.specs.Status.{deleted_status, status_of};
ghost use Rattle.kapi_reply.specs.Views.{asked_data, failure_data, subject_data};

use crate::failure::{bad_request, expired, failure_of, failure_of_fault, name_of, subject_of};
use crate::refusal::{BadRequestReason, OldRevision, Refused};
use crate::status::{Failure, Subject};
use crate::written::{write_deletion, write_status};
use json::Writer;
use kapi_http::{HttpFault, Method, Reply, StatusCode, write_reply};
use kapi_request_info::Attributes;
use kapi_text::{Memory, Sequence};
use std::alloc::Global;

/// The room that the text of most Status objects does not outgrow.
const STATUS_ROOM: usize = 512;

/// The bytes of a reply on a connection.
#[derive(Drop)]
pub struct WrittenReply {
    pub bytes: Sequence<u8>,
    /// The connection has ended with these bytes.
    pub close: bool,
}

/// The kind of a reply's body.
#[derive(Clone, Copy, PartialEq, Eq)]
pub enum Content {
    /// An object as JSON text.
    Json,
    Text,
}

/// A refused request: its identity, its method and its attributes.
#[derive(Clone, Copy)]
pub struct RefusedRequest<'a> {
    pub user: &'a str,
    pub method: Method,
    pub attributes: &'a Attributes,
}

/// A reply with an object, given as JSON text, or a plain text.
pub fn content_reply(
    alloc: Global,
    code: StatusCode,
    content: Content,
    close: bool,
    body: Vec<u8>,
) -> Result<WrittenReply, Memory>
    ensures { IfOk result (λ o. o ≡ replies.content_reply code content close body.items) }
{
    let reply = Reply {
        code,
        plain: is_plain(content),
        allow: Sequence::new(Vec::new(alloc)),
        chunked: false,
        close,
        body: Some(Sequence::new(body)),
    };
    write(alloc, &reply)
}

/// The head of a watch, whose events follow in chunks. It does not end the connection, which may close after the watch.
pub fn watch_reply(alloc: Global, close: bool) -> Result<WrittenReply, Memory>
    ensures { IfOk result (λ o. o ≡ replies.watch_reply close) }
{
    let head = Reply {
        code: StatusCode::Ok,
        plain: false,
        allow: Sequence::new(Vec::new(alloc)),
        chunked: true,
        close,
        body: None,
    };
    Ok(WrittenReply {
        bytes: Sequence::new(write_reply(alloc, &head)?),
        close: false,
    })
}

fn is_plain(content: Content) -> bool
    ensures { result ≡ replies.is_plain content }
{
    match content {
        Content::Json => false,
        Content::Text => true,
    }
}

/// The bytes of a reply.
fn write(alloc: Global, reply: &Reply) -> Result<WrittenReply, Memory>
    ensures { IfOk result (λ o. o ≡ sent reply.now) }
{
    Ok(WrittenReply {
        bytes: Sequence::new(write_reply(alloc, reply)?),
        close: reply.close,
    })
}

/// The bytes of a reply with a JSON body, or none.
fn send(
    alloc: Global,
    code: StatusCode,
    allow: &[Method],
    close: bool,
    body: Option<Sequence<u8>>,
) -> Result<WrittenReply, Memory>
    ensures { IfOk result (λ o. o ≡ sent (json_reply code allow.now close body)) }
{
    let reply = Reply {
        code,
        plain: false,
        allow: Sequence::new(Vec::from_slice(alloc, allow)?),
        chunked: false,
        close,
        body,
    };
    write(alloc, &reply)
}

/// The reply to a refused request.
pub fn refusal_reply(
    alloc: Global,
    asked: RefusedRequest<'_>,
    close: bool,
    refused: &Refused,
) -> Result<WrittenReply, Memory>
    ensures { IfOk result (λ o. o ≡ replies.refusal_reply (asked_data asked.entry) close refused.now) }
{
    let name = name_in(asked, refused);
    let failure = failure_of(alloc, asked, name, &refused.why)?;
    failure_reply(
        alloc,
        subject_of(&asked.attributes.point, name),
        close,
        failure,
    )
}

/// The Status object for a refused request, as JSON text.
pub fn refusal_text(
    alloc: Global,
    asked: RefusedRequest<'_>,
    refused: &Refused,
) -> Result<Vec<u8>, Memory>
    ensures { IfOk result (λ b. b.items ≡ compact_text (replies.refusal_status (asked_data asked.entry) refused.now)) }
{
    let name = name_in(asked, refused);
    let failure = failure_of(alloc, asked, name, &refused.why)?;
    status_text(alloc, subject_of(&asked.attributes.point, name), &failure)
}

/// The name of the object that a refusal is about.
fn name_in<'a>(asked: RefusedRequest<'a>, refused: &'a Refused) -> &'a str
    ensures { result.now ≡ table.name_in (asked_data asked.entry) refused.entry.now }
{
    match &refused.name {
        Some(name) => name.as_str(),
        None => name_of(&asked.attributes.point),
    }
}

/// The reply to a request whose target has a fault: nothing is known of its attributes.
pub fn target_reply(
    alloc: Global,
    word: BadRequestReason,
    close: bool,
) -> Result<WrittenReply, Memory>
    ensures { IfOk result (λ o. o ≡ replies.target_reply word close) }
{
    let failure = bad_request(alloc, word.as_str())?;
    failure_reply(alloc, None, close, failure)
}

/// A reply that reports a failure and its subject.
fn failure_reply(
    alloc: Global,
    subject: Option<Subject<'_>>,
    close: bool,
    failure: Failure,
) -> Result<WrittenReply, Memory>
    ensures { IfOk result (λ o. o ≡ replies.failure_reply (option_map subject_data subject.entry) close (failure_data failure)) }
{
    let body = status_text(alloc, subject, &failure)?;
    send(
        alloc,
        failure.code,
        failure.allow,
        close,
        Some(Sequence::new(body)),
    )
}

/// The Status object of a failure as JSON text.
#[tactic(auto, using(crate::proofs::StatusTexts::print_outline))]
fn status_text(
    alloc: Global,
    subject: Option<Subject<'_>>,
    failure: &Failure,
) -> Result<Vec<u8>, Memory>
    ensures { IfOk result (λ b. b.items ≡ compact_text (status_of (option_map subject_data subject.entry) (failure_data failure.now))) }
{
    let mut out = Writer::new(Vec::with_capacity(alloc, STATUS_ROOM)?);
    write_status(&mut out, subject, failure)?;
    Ok(out.into_inner())
}

/// The Status object for a watch that cannot go on, as JSON text: changes after its revision may be kept no longer.
pub fn expired_text(
    alloc: Global,
    subject: Subject<'_>,
    old: OldRevision,
) -> Result<Vec<u8>, Memory>
    ensures { IfOk result (λ b. b.items ≡ compact_text (status_of (Some (subject_data subject.entry)) (table.expired old))) }
{
    let failure = expired(alloc, old)?;
    status_text(alloc, Some(subject), &failure)
}

/// The Status object for a deletion, as JSON text: its subject, and the uid of what was deleted (Kubernetes API
/// conventions, 'Response Status Kind').
#[tactic(auto, using(crate::proofs::StatusTexts::print_outline))]
pub fn deletion_text(alloc: Global, subject: Subject<'_>, uid: &str) -> Result<Vec<u8>, Memory>
    ensures { IfOk result (λ b. b.items ≡ compact_text (deleted_status (subject_data subject.entry) uid.now)) }
{
    let mut out = Writer::new(Vec::with_capacity(alloc, STATUS_ROOM)?);
    write_deletion(&mut out, subject, uid)?;
    Ok(out.into_inner())
}

/// The reply to bytes that are no request; it ends the connection.
#[tactic(auto, unfolding(crate::specs::Replies::fault_reply))]
pub fn fault_reply(alloc: Global, fault: &HttpFault) -> Result<WrittenReply, Memory>
    ensures { IfOk result (λ o. o ≡ replies.fault_reply fault.now) }
{
    let failure = failure_of_fault(alloc, fault.code, fault.word.as_str())?;
    let allow = failure.allow;
    let body = fault_body(alloc, fault, failure)?;
    send(alloc, fault.code, allow, true, body)
}

/// The body that reports a fault; a reply to HEAD has none (RFC 9110 section 9.3.2).
fn fault_body(
    alloc: Global,
    fault: &HttpFault,
    failure: Failure,
) -> Result<Option<Sequence<u8>>, Memory>
    requires { failure_data failure ≡ table.fault_failure fault.now.code fault.now.word }
    ensures { IfOk result (λ b. b ≡ replies.fault_body fault.now) }
{
    if fault.no_body {
        return Ok(None);
    }
    Ok(Some(Sequence::new(status_text(alloc, None, &failure)?)))
}
