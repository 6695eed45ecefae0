ghost use Rattle.std.specs.Prelude.{not, ◌≡◌, ◌||◌, ◌+◌, ◌<◌, ◌≤◌, None, Some, true, false, IfOk, IsErr, OnOk, length};
ghost use Rattle.std.specs.declared.time.Duration.{Duration as ADuration};
ghost use Rattle.mio.specs.Event.{is_error, is_read_closed, is_writable};
ghost use Rattle.kapi_serve.specs.Private.Turns.{may_be_read, turn_of};
ghost use Rattle.kapi_serve.specs.declared.port.PortEvent.TheVariants as event;

use crate::port::PortEvent;
use mio::event::Event;
use mio::net::TcpStream;
use std::io::{self, ErrorKind, Read, Write};
use std::net::Shutdown;
use std::time::Duration;

/// The number of bytes of a client that are read before the others have their turn.
const READ_SHARE: usize = 2_048;

/// The number of bytes that are written to a client before the others have their turn.
const WRITE_SHARE: usize = 32_768;

/// The number of seconds that a client may take nothing of what is written to it, if others need its socket.
const PATIENCE: u64 = 60;

/// The socket of a client, and what is left of its share.
#[derive(Drop)]
pub(crate) struct Stream {
    socket: TcpStream,
    /// The listener by which the client came.
    pub(crate) listener: usize,
    /// The round in which the client last sent or took something.
    pub(crate) used: u64,
    /// The connection was broken off, and is about to end.
    pub(crate) leaving: bool,
    /// The socket may have bytes, or their end.
    readable: bool,
    /// The bytes have ended, or the socket has failed, so that a read reports it.
    ended: bool,
    /// All bytes that came were read; an event reports more.
    drained: bool,
    /// The socket may take bytes again.
    writable: bool,
    read_left: usize,
    write_left: usize,
    /// The time since which the socket has taken nothing.
    blocked_since: Option<Duration>,
    ghost shares: { (read_left ≤ 2_048) × (write_left ≤ 32_768) },
}

impl Stream {
    pub(crate) fn new(socket: TcpStream, listener: usize, round: u64) -> Stream
        ensures idle { (result.writable || result.readable) ≡ false }
        ensures came { (result.listener ≡ listener) × (result.used ≡ round) × (result.leaving ≡ false) }
    {
        Stream {
            socket,
            listener,
            used: round,
            leaving: false,
            readable: false,
            ended: false,
            drained: false,
            writable: false,
            read_left: READ_SHARE,
            write_left: WRITE_SHARE,
            blocked_since: None,
        }
    }

    /// Notes the readiness that an event reports.
    pub(crate) fn note(&mut self, event: &Event)
        ensures readable { self.new.readable ≡ (may_be_read event.now || self.old.readable) }
        ensures writable { is_writable event.now ≡ true → (since : ADuration) → self.old.blocked_since ≡ Some since → self.new.writable ≡ true }
        ensures ended { (is_read_closed event.now || is_error event.now) ≡ true → self.new.ended ≡ true }
        ensures same { (self.new.read_left ≡ self.old.read_left) × (self.new.write_left ≡ self.old.write_left) }
    {
        if event.is_writable() && self.blocked_since.is_some() {
            self.writable = true;
        }
        if event.is_read_closed() || event.is_error() {
            self.ended = true;
        }
        if event.is_readable() || event.is_read_closed() || event.is_error() {
            self.readable = true;
        }
    }

    /// The event of the stream on this slot, if it is ready. Its share is whole then.
    pub(crate) fn take_turn(&mut self, slot: usize) -> Option<PortEvent>
        ensures event { result ≡ turn_of slot self.old.writable self.old.readable }
        ensures asks { result ≡ Some (event.Readable slot) → self.new.drained ≡ false }
        ensures idle { result ≡ None → (self.new.writable || self.new.readable) ≡ false }
    {
        if self.writable {
            self.writable = false;
            self.write_left = WRITE_SHARE;
            return Some(PortEvent::Writable(slot));
        }
        if self.readable {
            self.readable = false;
            self.drained = false;
            self.read_left = READ_SHARE;
            return Some(PortEvent::Readable(slot));
        }
        None
    }

    /// Whether the stream has an event for its next turn.
    pub(crate) fn is_ready(&self) -> bool
        ensures { result ≡ (self.now.writable || self.now.readable) }
    {
        self.writable || self.readable
    }

    /// Whether no bytes are yet to be read.
    pub(crate) fn is_read(&self) -> bool
        ensures { result ≡ not self.now.readable }
    {
        !self.readable
    }

    /// Reads within the share. When it is used up, or writes wait for their turn, reading goes on at the next turn. A
    /// read that is given less than it asks for has emptied the socket, and the next one need not ask.
    pub(crate) fn read(&mut self, buffer: &mut [u8], round: u64) -> io::Result<usize>
        ensures len { length buffer.new ≡ length buffer.old }
        ensures bound { IfOk result (λ n. n ≤ length buffer.new) }
        ensures share { IfOk result (λ n. n + self.new.read_left ≡ self.old.read_left) }
        ensures used_up { self.old.read_left ≡ 0 → IsErr result × (self.new.readable ≡ true) }
        ensures drained { IfOk result (λ n. self.new.drained ≡ true → (n < length buffer.old) × (n < self.old.read_left) × (self.old.ended ≡ false)) }
        ensures kept { IsErr result → self.new.drained ≡ self.old.drained }
        ensures used { OnOk result (self.new.used ≡ round) }
    {
        let most = self.read_left.min(buffer.len());
        if most == 0 || self.writable {
            self.readable = true;
            return Err(io::Error::from(ErrorKind::WouldBlock));
        }
        if self.drained {
            return Err(io::Error::from(ErrorKind::WouldBlock));
        }
        let count = self.socket.read(&mut buffer[..most])?;
        self.drained = count < most && !self.ended;
        self.read_left -= count;
        self.used = round;
        Ok(count)
    }

    /// Writes within the share. When the share is used up, writing goes on at the next turn.
    pub(crate) fn write(&mut self, bytes: &[u8], round: u64, now: Duration) -> io::Result<usize>
        ensures bound { IfOk result (λ n. n ≤ length bytes.now) }
        ensures share { IfOk result (λ n. n + self.new.write_left ≡ self.old.write_left) }
        ensures used_up { self.old.write_left ≡ 0 → IsErr result × (self.new.writable ≡ true) }
        ensures taken { IfOk result (λ _. self.new.blocked_since ≡ None) }
        ensures used { OnOk result (self.new.used ≡ round) }
        ensures since { (since : ADuration) → self.old.blocked_since ≡ Some since → IsErr result → self.new.blocked_since ≡ Some since }
    {
        if self.write_left == 0 {
            self.writable = true;
            return Err(io::Error::from(ErrorKind::WouldBlock));
        }
        let most = self.write_left.min(bytes.len());
        match self.socket.write(&bytes[..most]) {
            Ok(count) => {
                self.write_left -= count;
                self.blocked_since = None;
                self.used = round;
                Ok(count)
            }
            Err(error) => {
                self.blocked_since = self.blocked_since.or(Some(now));
                Err(error)
            }
        }
    }

    /// Whether the client has taken nothing for as long as it may.
    pub(crate) fn is_stuck(&self, now: Duration) -> bool
        ensures { self.now.blocked_since ≡ None → result ≡ false }
    {
        match self.blocked_since {
            Some(since) => now.saturating_sub(since).as_secs() >= PATIENCE,
            None => false,
        }
    }

    /// Breaks the connection, so that the next write fails, and a read comes to the end.
    pub(crate) fn break_off(&mut self)
        ensures { self.new ≡ record self.old { writable = true; readable = true; leaving = true } }
    {
        let _fault = self.socket.shutdown(Shutdown::Both);
        self.writable = true;
        self.readable = true;
        self.leaving = true;
    }
}
