ghost use Rattle.std.specs.Prelude.{◌≡◌, ◌<◌, ◌≤◌, ◌||◌, ◌++◌, ◌∷◌, ℕ, [], All, Err, HoldsAt, IfOk, IfSome, None, OnOk, Some, false, length, nat_lt, true, vec_len};
ghost use Rattle.mio.specs.Event.{event_token};
ghost use Rattle.std.specs.IoError.{error_kind};
ghost use Rattle.std.specs.List.{list_any};
ghost use Rattle.std.specs.declared.io.Error.{Error as AnError};
ghost use Rattle.std.specs.declared.io.ErrorKind.TheVariants as kind;
ghost use Rattle.kapi_serve.specs.Listening.{CameByDoor, doors};
ghost use Rattle.kapi_serve.specs.Places.{count_by};
ghost use Rattle.kapi_serve.specs.Private.Ready.{has_turn_next};
ghost use Rattle.kapi_serve.specs.declared.port.PortEvent.TheVariants as event;
ghost use Rattle.kapi_serve.specs.declared.port.PortFault.TheVariants as fault;

use crate::listener::Listener;
use crate::port::{PortEvent, PortFault, Ports};
use crate::slots::Slots;
use kapi_model::Identity;
use kapi_text::TryCopy;
use mio::event::Event;
use mio::net::TcpListener;
use mio::{Events, Interest, Poll, Token};
use std::alloc::Global;
use std::io::{self, ErrorKind};
use std::net::{Ipv4Addr, Net, SocketAddr};
use std::time::{Clock, Duration};

/// The largest number of events that are taken from one wait.
const EVENTS: usize = 256;

/// The longest wait, in milliseconds.
const WAIT: u64 = 100;

/// The number of steps in a row refused for want of memory after which a client is ended.
const MOST_REFUSED: u32 = 10;

/// The number of clients that are accepted before the open ones have their turn again.
const MOST_ACCEPTED: usize = 16;

/// Ports over sockets of this machine. In each round every listener has one turn, which goes to one of its ready
/// slots, then a few clients are accepted.
#[derive(Drop)]
pub struct Sockets<C: Clock + Drop> {
    alloc: Global,
    clock: C,
    poll: Poll,
    events: Events,
    listeners: Vec<Listener>,
    slots: Slots,
    /// The time at which the round began.
    now: Duration,
    /// The time since which no step was made again after it ran out of memory; none in the round of such a retry.
    spared: Option<Duration>,
    failures: u64,
}

impl<C: Clock + Drop> Sockets<C> {
    /// Ports with no listener.
    pub fn new<N: Net>(alloc: Global, net: &N, clock: C) -> io::Result<Sockets<C>>
        ensures { IfOk result (λ s. doors s.listeners.items ≡ []) }
    {
        Ok(Sockets {
            alloc,
            clock,
            poll: Poll::new(net)?,
            events: Events::with_capacity(alloc, EVENTS)?,
            listeners: Vec::new(alloc),
            slots: Slots::new(alloc),
            now: Duration::ZERO,
            spared: None,
            failures: 0,
        })
    }

    /// Listens on a port of 127.0.0.1 for clients of this identity, and returns the port. A free port is taken for 0.
    /// All listeners are made before the first client is waited for.
    pub fn listen<N: Net>(&mut self, net: &N, port: u16, identity: Identity) -> io::Result<u16>
        ensures { OnOk result (doors self.new.listeners.items ≡ doors self.old.listeners.items ++ (port, identity) ∷ []) }
    {
        let mut socket = TcpListener::bind(net, SocketAddr::from((Ipv4Addr::LOCALHOST, port)))?;
        let listened = socket.local_addr()?.port();
        self.poll.registry().register(
            &mut socket,
            Token(self.listeners.len()),
            Interest::READABLE,
        )?;
        self.listeners.push(Listener {
            socket,
            port,
            identity,
            waiting: false,
            left: 0,
        })?;
        Ok(listened)
    }

    /// Accepts one client, if one waits and is let in. If no slot is free, a client that takes nothing loses its own.
    fn accept(&mut self) -> Option<PortEvent>
        ensures doors { doors self.new.listeners.items ≡ doors self.old.listeners.items }
        ensures identity { CameByDoor self.old.listeners.items result }
    {
        for _turn in 0..self.listeners.len() {
            let index = next_listener(self.listeners.as_slice(), &self.slots)?;
            if !self.slots.make_room(index, self.listeners.len()) {
                return None;
            }
            let Some(slot) = self.slots.free() else {
                self.slots.break_stuck(self.now);
                return None;
            };
            if let Some(event) = self.accept_or_pause(index, slot) {
                return Some(event);
            }
        }
        None
    }

    /// Accepts a client of this listener; if none comes, the listener has no more turns in this round.
    fn accept_or_pause(&mut self, index: usize, slot: usize) -> Option<PortEvent>
        requires listener { index < vec_len self.old.listeners }
        requires slot { slot < vec_len self.old.slots.streams }
        ensures same { vec_len self.new.listeners ≡ vec_len self.old.listeners }
        ensures doors { doors self.new.listeners.items ≡ doors self.old.listeners.items }
        ensures identity { CameByDoor self.old.listeners.items result }
    {
        match self.accept_at(index, slot) {
            Ok(event) => Some(event),
            Err(error) => {
                self.listeners[index].pause(error.kind());
                None
            }
        }
    }

    fn accept_at(&mut self, index: usize, slot: usize) -> io::Result<PortEvent>
        requires listener { index < vec_len self.old.listeners }
        requires slot { slot < vec_len self.old.slots.streams }
        ensures identity { HoldsAt (λ listener. IfOk result (λ opened. opened ≡ event.Opened slot listener.identity)) self.old.listeners.items index }
        ensures same { vec_len self.new.listeners ≡ vec_len self.old.listeners }
        ensures doors { doors self.new.listeners.items ≡ doors self.old.listeners.items }
    {
        let listener = &mut self.listeners[index];
        listener.left = listener.left.saturating_sub(1);
        let identity = listener.identity.copy(self.alloc)?;
        let (mut socket, _address) = listener.socket.accept()?;
        socket.set_nodelay(true)?;
        self.poll.registry().register(
            &mut socket,
            Token(self.listeners.len().saturating_add(slot)),
            Interest::READABLE | Interest::WRITABLE,
        )?;
        self.slots.put(slot, socket, index);
        Ok(PortEvent::Opened(slot, identity))
    }

    /// The next event that is left in this round.
    fn go_on(&mut self) -> Option<PortEvent>
        ensures doors { doors self.new.listeners.items ≡ doors self.old.listeners.items }
        ensures identity { CameByDoor self.old.listeners.items result }
    {
        match self.slots.take_turn(self.listeners.len()) {
            Some(event) => Some(event),
            None => self.accept(),
        }
    }

    /// Whether a stream has an event for its next turn, or a client may wait to be accepted.
    fn is_some_ready(&self) -> bool
        ensures { result ≡ (list_any (λ listener. listener.waiting) self.entry.now.listeners.items || list_any has_turn_next self.entry.now.slots.streams.items) }
    {
        is_some_waiting(self.listeners.as_slice()) || self.slots.is_some_ready()
    }

    /// Begins a round, after a wait of at most `most` milliseconds. None if the wait fails.
    fn begin_round(&mut self, most: u64) -> Option<()>
        ensures doors { doors self.new.listeners.items ≡ doors self.old.listeners.items }
        ensures turns { IfSome result (λ _. self.new.slots.turn ≡ 0) }
    {
        self.poll
            .poll(&mut self.events, Some(Duration::from_millis(most)))
            .ok()?;
        self.allow();
        self.slots.begin();
        note_all(&mut self.listeners, &mut self.slots, &self.events);
        self.now = self.clock.monotonic().unwrap_or(self.now);
        self.spared = self.spared.or(Some(self.now));
        Some(())
    }

    /// Lets each listener accept as many clients as any other.
    fn allow(&mut self)
        ensures { doors self.new.listeners.items ≡ doors self.old.listeners.items }
    {
        let share = MOST_ACCEPTED / self.listeners.len().max(1);
        for index in 0..self.listeners.len() {
            self.listeners[index].left = share.max(1);
        }
    }

    /// Whether no step that ran out of memory was made again for at least `WAIT` milliseconds.
    fn is_spared(&self) -> bool
        ensures { self.entry.now.spared ≡ None → result ≡ false }
    {
        match self.spared {
            Some(since) => self.now.saturating_sub(since) >= Duration::from_millis(WAIT),
            None => false,
        }
    }

    /// The fault of a stream's error. A slot fails only if that can be counted.
    fn fault(&mut self, error: Option<io::Error>) -> PortFault
        ensures failed { result ≡ fault.Failed → self.old.failures < self.new.failures }
        ensures waits { (e : AnError) → error ≡ Some e → error_kind e ≡ kind.WouldBlock → result ≡ fault.WouldBlock }
    {
        let waits = match &error {
            Some(error) => matches!(error.kind(), ErrorKind::WouldBlock | ErrorKind::Interrupted),
            None => false,
        };
        drop(error);
        if waits || self.failures == u64::MAX {
            return PortFault::WouldBlock;
        }
        self.failures += 1;
        PortFault::Failed
    }
}

/// The listener that may accept a client now: of those at which one waits, that by which the fewest came.
fn next_listener(listeners: &[Listener], slots: &Slots) -> Option<usize>
    ensures bound { IfSome result (λ index. index < length listeners.now) }
    ensures fewest { IfSome result (λ index. (other : ℕ) → other < length listeners.now → HoldsAt (λ listener. listener.waiting ≡ true → 0 < listener.left
        → count_by index slots.now.streams.items ≤ count_by other slots.now.streams.items) listeners.now other) }
    ensures none { result ≡ None → (other : ℕ) → other < length listeners.now → HoldsAt (λ listener. listener.waiting ≡ true → 0 < listener.left → ⊥) listeners.now other }
{
    let mut found = None;
    for index in 0..listeners.len() {
        if listeners[index].has_turn() && has_fewer(slots, index, found) {
            found = Some(index);
        }
    }
    found
}

/// Whether fewer clients came by a listener than by another, if there is one.
fn has_fewer(slots: &Slots, index: usize, other: Option<usize>) -> bool
    ensures fewer { IfSome other (λ o. result ≡ nat_lt (count_by index slots.now.streams.items) (count_by o slots.now.streams.items)) }
    ensures none { other ≡ None → result ≡ true }
{
    match other {
        Some(other) => slots.count(index) < slots.count(other),
        None => true,
    }
}

/// Whether a client may wait to be accepted.
fn is_some_waiting(listeners: &[Listener]) -> bool
    ensures { result ≡ list_any (λ listener. listener.waiting) listeners.now }
{
    listeners.iter().any(|listener| listener.waiting)
}

/// Notes the readiness that events report.
fn note_all(listeners: &mut Vec<Listener>, slots: &mut Slots, events: &Events)
    ensures doors { doors listeners.new.items ≡ doors listeners.old.items }
    ensures turn { slots.new.turn ≡ slots.old.turn }
{
    for event in events {
        note(listeners, slots, event);
    }
}

/// Notes the readiness that an event reports.
fn note(listeners: &mut Vec<Listener>, slots: &mut Slots, event: &Event)
    ensures doors { doors listeners.new.items ≡ doors listeners.old.items }
    ensures turn { slots.new.turn ≡ slots.old.turn }
    ensures waits { (event_token event.now).0 < vec_len listeners.old → HoldsAt (λ l. l.waiting ≡ true) listeners.new.items (event_token event.now).0 }
{
    let token = event.token().0;
    if token < listeners.len() {
        listeners[token].waiting = true;
        return;
    }
    slots.note(token - listeners.len(), event);
}

impl<C: Clock + Drop> Ports for Sockets<C> {
    ghost failures = { λ s. s.failures };

    fn next(&mut self) -> Option<PortEvent>
        ensures doors { doors self.new.listeners.items ≡ doors self.old.listeners.items }
        ensures identity { CameByDoor self.old.listeners.items result }
    {
        if let Some(event) = self.go_on() {
            return Some(event);
        }
        if self.is_some_ready() {
            self.begin_round(0)?;
            if let Some(event) = self.go_on() {
                return Some(event);
            }
        }
        self.begin_round(WAIT)?;
        Some(self.go_on().unwrap_or(PortEvent::Idle))
    }

    fn read(&mut self, slot: usize, buffer: &mut [u8]) -> Result<usize, PortFault> {
        let error = match self.slots.read(slot, buffer) {
            Some(Ok(count)) => return Ok(count),
            Some(Err(error)) => Some(error),
            None => None,
        };
        Err(self.fault(error))
    }

    fn write(&mut self, slot: usize, bytes: &[u8]) -> Result<usize, PortFault> {
        let error = match self.slots.write(slot, bytes, self.now) {
            Some(Ok(count)) => return Ok(count),
            Some(Err(error)) => Some(error),
            None => None,
        };
        Err(self.fault(error))
    }

    fn retry(&mut self, slot: usize, refused: u32) -> Result<(), PortFault>
        ensures failed { result ≡ Err fault.Failed → self.old.failures < self.new.failures }
        ensures waits { self.old.spared ≡ None → result ≡ Err fault.WouldBlock }
        ensures once { OnOk result (self.new.spared ≡ None) }
    {
        if !self.is_spared() {
            return Err(PortFault::WouldBlock);
        }
        if refused >= MOST_REFUSED && self.slots.is_read(slot) {
            return Err(self.fault(None));
        }
        self.spared = None;
        Ok(())
    }

    fn user(&self, slot: usize) -> usize {
        self.slots.listener(slot)
    }

    fn end(&mut self, slot: usize)
        ensures freed { slot < vec_len self.old.slots.streams → HoldsAt (λ place. place ≡ None) self.new.slots.streams.items slot }
    {
        self.slots.take(slot);
    }
}
