//! Who is let in if all places are taken, who makes room, and which client is due next.
ghost use Rattle.std.specs.Prelude.{◌≡◌, ◌<◌, IfSome, None, length, nat_lt, true};
ghost use Rattle.std.specs.List.{HoldsAt, list_any};
ghost use Rattle.kapi_serve.specs.Places.{IsBusiest, IsDisplaced, IsIdlest, count_by, is_by, is_leaving as is_leaving_at, last_used, taken as taken_of};
ghost use Rattle.kapi_serve.specs.Rounds.{IsFirstDue, NoneIsDue};

use crate::slots::is_ready_at;
use crate::stream::Stream;

/// Whether a slot has a client that came by a listener.
fn is_of(place: &Option<Stream>, listener: usize) -> bool
    ensures { result ≡ is_by listener place.now }
{
    match place {
        Some(stream) => stream.listener == listener,
        None => false,
    }
}

/// How many clients came by a listener.
pub(crate) fn count(slots: &[Option<Stream>], listener: usize) -> usize
    ensures { result ≡ count_by listener slots.now }
{
    slots.iter().filter(|place| is_of(place, listener)).count()
}

/// How many slots have a client.
pub(crate) fn taken(slots: &[Option<Stream>]) -> usize
    ensures { result ≡ taken_of slots.now }
{
    slots.iter().filter(|place| place.is_some()).count()
}

/// Whether the client of a slot is about to leave.
fn is_leaving(place: &Option<Stream>) -> bool
    ensures { result ≡ is_leaving_at place.now }
{
    match place {
        Some(stream) => stream.leaving,
        None => false,
    }
}

/// Whether a client is about to leave.
pub(crate) fn is_some_leaving(slots: &[Option<Stream>]) -> bool
    ensures { result ≡ list_any is_leaving_at slots.now }
{
    slots.iter().any(|place| is_leaving(place))
}

/// The slot of the client that makes room for one that waits at a listener, if one does.
pub(crate) fn displaced(
    slots: &[Option<Stream>],
    listener: usize,
    listeners: usize,
) -> Option<usize>
    ensures found { IfSome result (λ slot. (slot < length slots.now) × IsDisplaced listener listeners slots.now slot) }
    ensures none { result ≡ None → IsBusiest listeners listener slots.now }
{
    let most = busiest(slots, listeners);
    if count(slots, most) <= count(slots, listener) {
        return None;
    }
    idlest(slots, most)
}

/// The listener by which the most clients came.
fn busiest(slots: &[Option<Stream>], listeners: usize) -> usize
    ensures { IsBusiest listeners result slots.now }
{
    let mut found = 0;
    for listener in 0..listeners {
        if count(slots, listener) > count(slots, found) {
            found = listener;
        }
    }
    found
}

/// The slot of the client that has idled longest of those that came by a listener, if any did.
fn idlest(slots: &[Option<Stream>], listener: usize) -> Option<usize>
    ensures found { IfSome result (λ slot. (slot < length slots.now) × IsIdlest listener slots.now slot) }
    ensures none { result ≡ None → count_by listener slots.now ≡ 0 }
{
    let mut found = None;
    for slot in 0..slots.len() {
        if is_of(&slots[slot], listener) && has_idled_longer(slots, slot, found) {
            found = Some(slot);
        }
    }
    found
}

/// Whether the client of a slot has idled longer than that of another, if there is one.
fn has_idled_longer(slots: &[Option<Stream>], slot: usize, other: Option<usize>) -> bool
    requires slot { slot < length slots.now }
    requires other { IfSome other (λ o. o < length slots.now) }
    ensures longer { IfSome other (λ o. HoldsAt (λ place. HoldsAt (λ its. result ≡ nat_lt (last_used place) (last_used its)) slots.now o) slots.now slot) }
    ensures none { other ≡ None → result ≡ true }
{
    match other {
        Some(other) => used(&slots[slot]) < used(&slots[other]),
        None => true,
    }
}

/// The round in which the client of a slot last sent or took something.
fn used(place: &Option<Stream>) -> u64
    ensures { result ≡ last_used place.now }
{
    match place {
        Some(stream) => stream.used,
        None => 0,
    }
}

/// The first slot from one on, and before another, whose client came by a listener and has an event.
pub(crate) fn first_due(
    slots: &[Option<Stream>],
    listener: usize,
    from: usize,
    to: usize,
) -> Option<usize>
    ensures found { IfSome result (λ slot. (slot < length slots.now) × (slot < to) × IsFirstDue listener slots.now from slot) }
    ensures none { result ≡ None → NoneIsDue listener slots.now from to }
{
    for slot in from..to.min(slots.len()) {
        if is_of(&slots[slot], listener) && is_ready_at(&slots[slot]) {
            return Some(slot);
        }
    }
    None
}
