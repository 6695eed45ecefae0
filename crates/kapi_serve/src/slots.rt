ghost use Rattle.std.specs.Prelude.{◌≡◌, ◌<◌, ◌≤◌, ◌+◌, ◌-◌, ◌%◌, ℕ, All, IfOk, IfSome, None, Some, true, false, get_or, is_some, length, vec_len};
ghost use Rattle.std.specs.List.{HoldsAt, list_any};
ghost use Rattle.kapi_serve.specs.Places.{IsLetIn, MakesRoom, count_by, is_leaving};
ghost use Rattle.kapi_serve.specs.Private.Ready.{has_turn_next};
ghost use Rattle.kapi_serve.specs.Private.Turns.{may_be_read};
ghost use Rattle.kapi_serve.specs.Rounds.{AreIdle, IsIdle, IsNextTurn, IsOf};
ghost use Rattle.kapi_serve.specs.declared.port.PortEvent.{PortEvent as AnEvent};
ghost use Rattle.kapi_serve.specs.declared.port.PortEvent.TheVariants as event;
ghost use Rattle.kapi_model.specs.declared.identity.Identity.{Identity as AnIdentity};

use crate::places::{count, displaced, first_due, is_some_leaving, taken};
use crate::port::PortEvent;
use crate::stream::Stream;
use kapi_core::OPEN_CONNECTIONS;
use mio::event::Event;
use mio::net::TcpStream;
use std::alloc::Global;
use std::io;
use std::time::Duration;

/// The largest number of open sockets of clients.
const MOST_OPEN: usize = 320;

/// The number of listeners whose turns are remembered apart: as many as there are at most.
const LISTENERS: usize = 16;

/// The streams of clients by slot. In each round each listener has a turn, which goes to one of its clients. It is
/// looked for between the first and the last that may have an event, however many are open.
#[derive(Drop)]
pub(crate) struct Slots {
    streams: Vec<Option<Stream>>,
    /// The number of this round.
    round: u64,
    /// The listeners from this one on have not had their turn in this round.
    turn: usize,
    /// The slots before this one have no event.
    start: usize,
    /// Nor have those from this one on.
    end: usize,
    /// The slot of each listener from which on its next turn is looked for.
    next: [usize; LISTENERS],
    ghost before: { (i : ℕ) → i < start → i < length streams.items → HoldsAt (λ place. has_turn_next place ≡ false) streams.items i },
    ghost beyond: { (i : ℕ) → end ≤ i → i < length streams.items → HoldsAt (λ place. has_turn_next place ≡ false) streams.items i },
}

impl Slots {
    pub(crate) fn new(alloc: Global) -> Slots {
        Slots {
            streams: Vec::new(alloc),
            round: 0,
            turn: 0,
            start: 0,
            end: 0,
            next: [0; LISTENERS],
        }
    }

    /// A slot that no stream has, if there is one.
    pub(crate) fn free(&mut self) -> Option<usize>
        ensures slot { IfSome result (λ slot. slot < vec_len self.new.streams) }
        ensures free { IfSome result (λ slot. HoldsAt (λ place. place ≡ None) self.new.streams.items slot) }
        ensures few { vec_len self.old.streams ≤ 320 → vec_len self.new.streams ≤ 320 }
        ensures full { result ≡ None → All (λ place. place ≡ None → ⊥) self.new.streams.items }
    {
        match self.streams.iter().position(|stream| stream.is_none()) {
            Some(slot) => Some(slot),
            None => {
                if self.streams.len() >= MOST_OPEN {
                    return None;
                }
                self.streams.push(None).ok()?;
                Some(self.streams.len() - 1)
            }
        }
    }

    /// Puts the stream of a client that has connected by a listener into a slot.
    pub(crate) fn put(&mut self, slot: usize, socket: TcpStream, listener: usize)
        requires { slot < vec_len self.old.streams }
        ensures len { vec_len self.new.streams ≡ vec_len self.old.streams }
        ensures there { HoldsAt (λ place. is_some place ≡ true) self.new.streams.items slot }
    {
        self.streams[slot] = Some(Stream::new(socket, listener, self.round));
    }

    /// Takes the stream out of a slot.
    pub(crate) fn take(&mut self, slot: usize)
        ensures freed { slot < vec_len self.old.streams → HoldsAt (λ place. place ≡ None) self.new.streams.items slot }
    {
        if slot < self.streams.len() {
            drop(self.streams[slot].take());
        }
    }

    /// Begins a round: each listener is yet to have its turn.
    pub(crate) fn begin(&mut self)
        ensures { self.new.turn ≡ 0 }
    {
        self.narrow();
        self.round = self.round.saturating_add(1);
        self.turn = 0;
    }

    /// Leaves out the slots at both ends that have no event.
    fn narrow(&mut self)
        ensures same { self.new.streams ≡ self.old.streams }
    {
        let (mut start, mut end) = (self.start, self.end.min(self.streams.len()));
        while start < end {
            if !is_ready_at(&self.streams[start]) {
                start += 1;
            } else if !is_ready_at(&self.streams[end - 1]) {
                end -= 1;
            } else {
                break;
            }
        }
        self.start = if start < end {
            start
        } else {
            self.streams.len()
        };
        self.end = if start < end { end } else { 0 };
    }

    /// Takes a slot in among those that may have an event.
    fn cover(&mut self, slot: usize)
        requires { slot < vec_len self.old.streams }
        ensures within { (self.new.start ≤ slot) × (slot < self.new.end) }
        ensures same { (self.new.streams ≡ self.old.streams) × (self.new.turn ≡ self.old.turn) }
    {
        self.start = self.start.min(slot);
        self.end = self.end.max(slot + 1);
    }

    /// Notes the readiness that an event of a slot reports.
    pub(crate) fn note(&mut self, slot: usize, event: &Event)
        ensures turn { self.new.turn ≡ self.old.turn }
        ensures noted { slot < vec_len self.old.streams → may_be_read event.now ≡ true
            → HoldsAt (λ place. is_some place ≡ true → HoldsAt (λ place. has_turn_next place ≡ true) self.new.streams.items slot) self.old.streams.items slot }
    {
        if slot >= self.streams.len() {
            return;
        }
        self.cover(slot);
        if let Some(stream) = &mut self.streams[slot] {
            stream.note(event);
        }
    }

    /// The next turn of this round: of the first listener from `turn` on that has a client with an event.
    pub(crate) fn take_turn(&mut self, listeners: usize) -> Option<PortEvent>
        ensures turn { IfSome result (λ event. self.old.turn < self.new.turn) }
        ensures passed { IfSome result (λ event. AreIdle self.old.turn (self.new.turn - 1) self.old.streams.items) }
        ensures done { result ≡ None → AreIdle self.old.turn listeners self.old.streams.items }
        ensures open { (slot : ℕ) (identity : AnIdentity) → result ≡ Some (event.Opened slot identity) → ⊥ }
    {
        while self.turn < listeners {
            let taken = self.pass_turn();
            if taken.is_some() {
                return taken;
            }
        }
        None
    }

    /// The event of the next client of the listener whose turn it is, if one has an event. The turn passes to the next
    /// listener.
    fn pass_turn(&mut self) -> Option<PortEvent>
        requires { self.old.turn < 18446744073709551615 }
        ensures turn { self.new.turn ≡ self.old.turn + 1 }
        ensures next { IfSome result (λ event. (slot : ℕ) × IsOf slot event × IsNextTurn self.old.turn self.old.streams.items (get_or self.old.next (self.old.turn % 16) 0) slot × (get_or self.new.next (self.old.turn % 16) 0 ≡ slot + 1)) }
        ensures idle { result ≡ None → IsIdle self.old.turn self.old.streams.items × (self.new.streams ≡ self.old.streams) }
        ensures open { (slot : ℕ) (identity : AnIdentity) → result ≡ Some (event.Opened slot identity) → ⊥ }
    {
        let listener = self.turn;
        self.turn += 1;
        let slot = self.next_due(listener, self.next[listener % LISTENERS])?;
        self.next[listener % LISTENERS] = slot + 1;
        turn_at(&mut self.streams[slot], slot)
    }

    /// The slot of the client of a listener that has the next turn: the first with an event from a slot on, else the
    /// first of all.
    fn next_due(&self, listener: usize, from: usize) -> Option<usize>
        ensures found { IfSome result (λ slot. (slot < vec_len self.now.streams) × IsNextTurn listener self.now.streams.items from slot) }
        ensures within { IfSome result (λ slot. (self.now.start ≤ slot) × (slot < self.now.end)) }
        ensures none { result ≡ None → IsIdle listener self.now.streams.items }
    {
        let streams = self.streams.as_slice();
        match first_due(streams, listener, from.max(self.start), self.end) {
            Some(slot) => Some(slot),
            None => first_due(streams, listener, self.start, from.min(self.end)),
        }
    }

    /// Whether a stream has an event for its next turn.
    pub(crate) fn is_some_ready(&self) -> bool
        ensures { result ≡ list_any has_turn_next self.now.streams.items }
    {
        for slot in self.start..self.end.min(self.streams.len()) {
            if is_ready_at(&self.streams[slot]) {
                return true;
            }
        }
        false
    }

    /// The listener by which the client of a slot came; 0 if there is none.
    pub(crate) fn listener(&self, slot: usize) -> usize {
        match self.streams.get(slot) {
            Some(Some(stream)) => stream.listener,
            _ => 0,
        }
    }

    /// The number of clients that came by a listener.
    pub(crate) fn count(&self, listener: usize) -> usize
        ensures { result ≡ count_by listener self.now.streams.items }
    {
        count(self.streams.as_slice(), listener)
    }

    /// Whether a client that waits at a listener is let in. If all places are taken, and more clients came by another
    /// listener, it is not, until one of those has left that came by the listener of the most, and has idled longest.
    pub(crate) fn make_room(&mut self, listener: usize, listeners: usize) -> bool
        ensures len { vec_len self.new.streams ≡ vec_len self.old.streams }
        ensures let_in { result ≡ true → IsLetIn listener listeners self.old.streams.items }
        ensures refused { result ≡ false → MakesRoom listener listeners self.old.streams.items self.new.streams.items }
    {
        if taken(self.streams.as_slice()) < OPEN_CONNECTIONS {
            return true;
        }
        if is_some_leaving(self.streams.as_slice()) {
            return false;
        }
        match displaced(self.streams.as_slice(), listener, listeners) {
            Some(slot) => {
                self.break_off(slot);
                false
            }
            None => true,
        }
    }

    /// Breaks the stream of a slot.
    fn break_off(&mut self, slot: usize)
        requires { slot < vec_len self.old.streams }
        ensures len { vec_len self.new.streams ≡ vec_len self.old.streams }
        ensures leaving { HoldsAt (λ place. is_some place ≡ true → HoldsAt (λ its. is_leaving its ≡ true) self.new.streams.items slot) self.old.streams.items slot }
    {
        self.cover(slot);
        if let Some(stream) = &mut self.streams[slot] {
            stream.break_off();
        }
    }

    /// Breaks the first of the streams that have taken nothing for too long.
    pub(crate) fn break_stuck(&mut self, now: Duration) {
        for slot in 0..self.streams.len() {
            if is_stuck_at(&self.streams[slot], now) {
                return self.break_off(slot);
            }
        }
    }

    /// Reads from the stream of a slot, if there is one, within its share.
    pub(crate) fn read(&mut self, slot: usize, buffer: &mut [u8]) -> Option<io::Result<usize>>
        ensures len { length buffer.new ≡ length buffer.old }
        ensures bound { IfSome result (λ r. IfOk r (λ n. n ≤ length buffer.new)) }
    {
        if slot >= self.streams.len() {
            return None;
        }
        self.cover(slot);
        read_at(&mut self.streams[slot], buffer, self.round)
    }

    /// Whether a slot has no stream, or one with no bytes that are yet to be read.
    pub(crate) fn is_read(&self, slot: usize) -> bool {
        match self.streams.get(slot) {
            Some(Some(stream)) => stream.is_read(),
            _ => true,
        }
    }

    /// Writes to the stream of a slot, if there is one, within its share.
    pub(crate) fn write(
        &mut self,
        slot: usize,
        bytes: &[u8],
        now: Duration,
    ) -> Option<io::Result<usize>>
        ensures bound { IfSome result (λ r. IfOk r (λ n. n ≤ length bytes.now)) }
    {
        if slot >= self.streams.len() {
            return None;
        }
        self.cover(slot);
        write_at(&mut self.streams[slot], bytes, self.round, now)
    }
}

/// Whether there is a stream that has taken nothing for too long.
fn is_stuck_at(place: &Option<Stream>, now: Duration) -> bool {
    match place {
        Some(stream) => stream.is_stuck(now),
        None => false,
    }
}

fn read_at(place: &mut Option<Stream>, buffer: &mut [u8], round: u64) -> Option<io::Result<usize>>
    ensures len { length buffer.new ≡ length buffer.old }
    ensures bound { IfSome result (λ r. IfOk r (λ n. n ≤ length buffer.new)) }
{
    match place {
        Some(stream) => Some(stream.read(buffer, round)),
        None => None,
    }
}

fn write_at(
    place: &mut Option<Stream>,
    bytes: &[u8],
    round: u64,
    now: Duration,
) -> Option<io::Result<usize>>
    ensures { IfSome result (λ r. IfOk r (λ n. n ≤ length bytes.now)) }
{
    match place {
        Some(stream) => Some(stream.write(bytes, round, now)),
        None => None,
    }
}

/// The event of the stream on this slot, if there is one and it is ready.
fn turn_at(place: &mut Option<Stream>, slot: usize) -> Option<PortEvent>
    ensures on { IfSome result (λ event. IsOf slot event) }
    ensures some { has_turn_next place.old ≡ true → is_some result ≡ true }
    ensures open { (slot : ℕ) (identity : AnIdentity) → result ≡ Some (event.Opened slot identity) → ⊥ }
{
    match place {
        Some(stream) => stream.take_turn(slot),
        None => None,
    }
}

/// Whether there is a stream, which has an event for its next turn.
pub(crate) fn is_ready_at(place: &Option<Stream>) -> bool
    ensures { result ≡ has_turn_next place.now }
{
    match place {
        Some(stream) => stream.is_ready(),
        None => false,
    }
}
