ghost use Rattle.std.specs.Prelude.{◌≡◌, ◌≤◌, ◌<◌, [], ◌∷◌, IfOk, Err, length};
ghost use Rattle.kapi_serve.specs.Ports.{Adds, gave, opened, took};
ghost use Rattle.kapi_serve.specs.declared.port.Entry.TheVariants as entry;
ghost use Rattle.kapi_serve.specs.declared.port.PortFault.TheVariants as fault;

use kapi_model::Identity;
use kapi_text::Sequence;

/// The events of ports. A slot is the number of a connection among them, free again once it is ended.
#[derive(Drop)]
pub enum PortEvent {
    /// A client has connected on this slot, under this identity.
    Opened(usize, Identity),
    /// The slot may have bytes, or their end.
    Readable(usize),
    /// The slot may take bytes again.
    Writable(usize),
    /// Some time has passed in which nothing happened.
    Idle,
}

/// Why a slot read or wrote nothing.
#[derive(Clone, Copy, PartialEq, Eq)]
pub enum PortFault {
    /// There is nothing now, and an event reports when there may be.
    WouldBlock,
    /// The slot is broken.
    Failed,
}

/// What a call on ports read or wrote. Ports that report their history keep it.
#[derive(Drop)]
pub enum Entry {
    /// A client has connected.
    Opened(usize, Identity),
    /// The bytes that a read of the slot returned; none at the end of the client's bytes.
    Gave(usize, Sequence<u8>),
    /// The bytes that the slot accepted.
    Took(usize, Sequence<u8>),
    /// The slot was ended.
    Ended(usize),
}

/// Connections that are read and written without waiting.
pub trait Ports {
    ghost use Rattle.std.specs.Prelude.{ℕ};
    ghost use Rattle.kapi_serve.specs.Ports.{Report, untold};

    /// What the calls read and wrote so far, with evidence that all of them reported it, if they did.
    ghost report: { Self → Report } = { λ ports. untold };

    /// How often a slot has failed.
    ghost failures: { Self → ℕ };

    /// The next event; none if there will be none any more.
    fn next(&mut self) -> Option<PortEvent>
        ensures told { Adds (report self.old) (report self.new) (opened result) };

    /// Reads into the buffer; 0 is the end of the client's bytes.
    fn read(&mut self, slot: usize, buffer: &mut [u8]) -> Result<usize, PortFault>
        ensures len { length buffer.new ≡ length buffer.old }
        ensures bound { IfOk result (λ n. n ≤ length buffer.new) }
        ensures told { Adds (report self.old) (report self.new) (gave slot buffer.new result) }
        ensures failed { result ≡ Err fault.Failed → failures self.old < failures self.new };

    /// Writes some of the bytes.
    fn write(&mut self, slot: usize, bytes: &[u8]) -> Result<usize, PortFault>
        ensures bound { IfOk result (λ n. n ≤ length bytes.now) }
        ensures told { Adds (report self.old) (report self.new) (took slot bytes.now result) }
        ensures failed { result ≡ Err fault.Failed → failures self.old < failures self.new };

    /// Whether a step of a slot may be made again after it ran out of memory `_refused` times in a row: `WouldBlock` if
    /// not yet, `Failed` if never.
    fn retry(&mut self, _slot: usize, _refused: u32) -> Result<(), PortFault>
        ensures told { Adds (report self.old) (report self.new) [] }
        ensures failed { result ≡ Err fault.Failed → failures self.old < failures self.new }
    {
        Ok(())
    }

    /// The number of the user of a slot.
    fn user(&self, _slot: usize) -> usize {
        0
    }

    /// Ends a slot.
    fn end(&mut self, slot: usize)
        ensures told { Adds (report self.old) (report self.new) (entry.Ended slot ∷ []) };
}
