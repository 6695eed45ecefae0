ghost use Rattle.std.specs.Prelude.{◌≡◌, ◌↔◌, ◌<◌, ◌≤◌, false, true};
ghost use Rattle.std.specs.declared.io.ErrorKind.TheVariants as kind;

use kapi_model::Identity;
use mio::net::TcpListener;
use std::io::ErrorKind;

/// A TCP listener on a port, and the identity of each client that connects to it.
#[derive(Drop)]
pub(crate) struct Listener {
    pub(crate) socket: TcpListener,
    /// The port that was asked for, which is 0 where any was.
    pub(crate) port: u16,
    pub(crate) identity: Identity,
    /// A client may wait to be accepted.
    pub(crate) waiting: bool,
    /// The number of clients that may still be accepted in this round.
    pub(crate) left: usize,
    ghost few: { left ≤ 16 },
}

impl Listener {
    /// Whether a client may be accepted now.
    pub(crate) fn has_turn(&self) -> bool
        ensures { (result ≡ true) ↔ ((self.now.waiting ≡ true) × (0 < self.now.left)) }
    {
        self.waiting && self.left > 0
    }

    /// Accepts no client any more in this round. Clients go on waiting, unless the error is that there is none.
    pub(crate) fn pause(&mut self, error: ErrorKind)
        ensures door { (self.new.port ≡ self.old.port) × (self.new.identity ≡ self.old.identity) }
        ensures left { self.new.left ≡ 0 }
        ensures waits { (self.new.waiting ≡ false) ↔ (error ≡ kind.WouldBlock) }
    {
        self.left = 0;
        self.waiting = error != ErrorKind::WouldBlock;
    }
}
