//! Watches: if one can start, and what each of its events sends.
ghost use Rattle.std.specs.Prelude.{◌≡◌, List, Ok, None, IfOk, option_map};
ghost use Rattle.serde_json.specs.Data.{Data};
ghost use Rattle.serde_json.specs.Written.{compact_text};
ghost use Rattle.kapi_text.specs.ResultIs.{ResultIs};
ghost use Rattle.kapi_reply.specs.Refusals.{refused_by};
ghost use Rattle.kapi_store.specs.Plain.{Plain, PlainChange, RefinesPlain, plain_of};
ghost use Rattle.kapi_watch.specs.Running.{IsFresh, watch_data};
ghost use Rattle.kapi_watch.specs.Shown.{event_of};
ghost use Rattle.kapi_watch.specs.Text.{object_text_of};
ghost use Rattle.kapi_watch.specs.Watches.{startable};
ghost use Rattle.kapi_answer.specs.Watch as watches;
ghost use Rattle.kapi_answer.specs.Watch.{PlainWatching, RefinesWatching, event_reply_of, ending_of, expired_status, rechecked, refused_status, since_served, watch_of};

use crate::authorization::is_authorized;
use crate::query::Filter;
use kapi_http::{Method, write_chunk, write_end};
use kapi_model::{Identity, ResourceRow};
use kapi_policy::Policy;
use kapi_reply::{
    CheckError, OldRevision, Refusal, Refused, RefusedRequest, Revisions, Subject, expired_text,
    refusal_text,
};
use kapi_request_info::Attributes;
use kapi_store::Store;
use kapi_text::{Memory, Sequence};
use kapi_watch::{Event, Watch, WatchError, WatchScope, event_text};
use std::alloc::Global;

/// A watch that a connection shows.
#[derive(Drop)]
pub struct Watching {
    pub watch: Watch,
    /// The connection closes after the watch.
    pub close: bool,
    /// The identity that asked for the watch.
    pub identity: Identity,
    /// The attributes of the request that asked for the watch.
    pub attributes: Attributes,
}

/// What becomes of a watch, and of its connection, after an event was sent.
#[derive(Clone, Copy, PartialEq, Eq)]
pub enum After {
    /// The watch goes on.
    Watches,
    /// The watch has ended, and requests are served again.
    WatchEnded,
    /// The watch has ended, and the connection with it.
    Closes,
}

/// The bytes of an event.
#[derive(Drop)]
pub struct EventReply {
    pub bytes: Sequence<u8>,
    pub after: After,
}

/// A watch can start from that revision on.
#[tactic(auto, unfolding(crate::specs::Watch::since_served))]
pub fn check_since(store: &Store, since: u64) -> Result<(), CheckError>
    ensures { ResultIs refused_by (λ u. u) result (since_served (plain_of store.now) since) }
{
    let why = match Watch::check(store, since) {
        Ok(()) => return Ok(()),
        Err(WatchError::TooLarge) => Refusal::NotYetReached(Revisions {
            asked: since,
            current: store.revision(),
        }),
        Err(WatchError::TooOld) => Refusal::Expired(OldRevision {
            asked: since,
            begins: store.window_start(),
        }),
        Err(WatchError::Memory) => return Err(CheckError::Memory),
    };
    Err(CheckError::Refused(Refused::asked_for(why)))
}

/// The watch of what a collection request selects, from a revision on that `check_since` lets pass.
pub fn begin(
    alloc: Global,
    store: &Store,
    row: &ResourceRow,
    namespace: &str,
    filter: &Filter,
) -> Result<Watch, Memory>
    requires { startable (plain_of store.now) filter.now.since ≡ Ok tt }
    ensures gives { IfOk result (λ w. watch_data w ≡ watch_of (plain_of store.now) row.now namespace.now filter.now) }
    ensures fresh { IfOk result (IsFresh (plain_of store.now)) }
{
    let name = filter.name.as_str();
    let scope = WatchScope::new(alloc, row, namespace, &filter.selector, name)?;
    Watch::begin(alloc, store, scope, filter.since)
}

/// What a watch sends for the event that it shows next: a chunk of its own; at its end, that it cannot go on, and the
/// end of the body. Nothing is changed.
pub fn event_reply(
    alloc: Global,
    store: &Store,
    watching: &Watching,
    event: &Event<'_>,
) -> Result<EventReply, Memory>
    ensures { (history : List PlainChange) (s : Plain) (w : PlainWatching) → RefinesPlain store.now history s → RefinesWatching watching.now history s w
        → IfOk result (λ r. r ≡ event_reply_of s w (event_of event.now)) }
{
    match event.object_text(alloc)? {
        Some(object) => Ok(EventReply {
            bytes: Sequence::new(event_chunk(alloc, event.kind(), &object)?),
            after: After::Watches,
        }),
        None => end_reply(alloc, store, watching, event),
    }
}

/// What a watch with rechecked rights shows, if `on` is set: the loss of rights comes first. Allocates nothing.
#[tactic(auto, unfolding(crate::specs::Watch::rechecked))]
pub fn recheck<'a, P: Policy>(
    policy: &P,
    on: bool,
    watching: &Watching,
    event: Option<Event<'a>>,
) -> Option<Event<'a>>
    ensures { (history : List PlainChange) (s : Plain) (w : PlainWatching) → RefinesWatching watching.now history s w
        → option_map event_of result ≡ rechecked on (P.content policy.now) w (option_map event_of event.entry) }
{
    if on && !is_authorized(policy, &watching.identity, &watching.attributes) {
        Some(Event::Refused)
    } else {
        event
    }
}

/// An event of a type with this text of an object, as a line in a chunk.
fn event_chunk(alloc: Global, kind: &str, object: &[u8]) -> Result<Vec<u8>, Memory>
    ensures { (d : Data) → object.now ≡ compact_text d → IfOk result (λ b. b.items ≡ watches.event_chunk kind.now d) }
{
    let mut line = event_text(alloc, kind, object)?;
    line.push(b'\n')?;
    write_chunk(alloc, &line)
}

/// What a watch sends at its end.
fn end_reply(
    alloc: Global,
    store: &Store,
    watching: &Watching,
    event: &Event<'_>,
) -> Result<EventReply, Memory>
    ensures { (history : List PlainChange) (s : Plain) (w : PlainWatching) → RefinesPlain store.now history s → RefinesWatching watching.now history s w
        → None ≡ object_text_of (event_of event.now) → IfOk result (λ r. r ≡ event_reply_of s w (event_of event.now)) }
{
    match event {
        Event::Refused => refused_reply(alloc, watching),
        _other => expired_reply(alloc, store, watching),
    }
}

/// What a watch sends where its rights were taken away.
fn refused_reply(alloc: Global, watching: &Watching) -> Result<EventReply, Memory>
    ensures { (history : List PlainChange) (s : Plain) (w : PlainWatching) → RefinesWatching watching.now history s w
        → IfOk result (λ r. r ≡ ending_of w.close (refused_status w)) }
{
    let asked = RefusedRequest {
        user: watching.identity.user.as_str(),
        method: Method::Get,
        attributes: &watching.attributes,
    };
    let status = refusal_text(alloc, asked, &Refused::asked_for(Refusal::Forbidden))?;
    ended_reply(alloc, &status, watching.close)
}

/// What a watch sends if it cannot go on.
fn expired_reply(alloc: Global, store: &Store, watching: &Watching) -> Result<EventReply, Memory>
    ensures { (history : List PlainChange) (s : Plain) (w : PlainWatching) → RefinesPlain store.now history s → RefinesWatching watching.now history s w
        → IfOk result (λ r. r ≡ ending_of w.close (expired_status s w.watch)) }
{
    let scope = watching.watch.scope();
    let subject = Subject {
        group: scope.row.group.as_str(),
        resource: scope.row.plural.as_str(),
        name: scope.name.as_str(),
    };
    let old = OldRevision {
        asked: watching.watch.position(),
        begins: store.window_start(),
    };
    let status = expired_text(alloc, subject, old)?;
    ended_reply(alloc, &status, watching.close)
}

/// The last event of a watch, with the text of the Status object that reports the reason, and the end of the body.
fn ended_reply(alloc: Global, status: &[u8], close: bool) -> Result<EventReply, Memory>
    ensures { (d : Data) → status.now ≡ compact_text d → IfOk result (λ r. r ≡ ending_of close d) }
{
    let mut bytes = event_chunk(alloc, "ERROR", status)?;
    bytes.extend_from_slice(&write_end(alloc)?)?;
    Ok(EventReply {
        bytes: Sequence::new(bytes),
        after: after_end(close),
    })
}

fn after_end(close: bool) -> After
    ensures { result ≡ watches.after_end close }
{
    if close {
        After::Closes
    } else {
        After::WatchEnded
    }
}
