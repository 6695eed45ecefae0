//! Ports that report their history, and a server over them.
ghost use Rattle.std.specs.Prelude.{◌≡◌, ◌++◌, [], ◌∷◌, List, false};
ghost use Rattle.kapi_core.specs.Machine.{Machine};
ghost use Rattle.kapi_core.specs.Refines.{Refines};
ghost use Rattle.kapi_serve.specs.Account.{Account, Made};
ghost use Rattle.kapi_serve.specs.Advances.{Runs};
ghost use Rattle.kapi_serve.specs.Ports.{opened};
ghost use Rattle.kapi_serve.specs.declared.port.Entry.{Entry as AnEntry};
ghost use Rattle.kapi_serve.specs.declared.port.Entry.TheVariants as entry;

use kapi_core::Core;
use kapi_policy::Policy;
use kapi_publishing::Desk;
use kapi_serve::{Entry, PortEvent, PortFault, Ports, serve_loop};
use kapi_text::{Sequence, TryCopy};
use std::alloc::Global;
use std::sync::Wait;

/// What calls on ports read and wrote, as long as there is memory for it.
#[derive(Drop)]
pub struct Record {
    alloc: Global,
    pub entries: Vec<Entry>,
    /// An entry is missing.
    pub lost: bool,
}

impl Record {
    fn new(alloc: Global) -> Record {
        Record {
            alloc,
            entries: Vec::new(alloc),
            lost: false,
        }
    }

    fn note(&mut self, entry: Entry)
        ensures { self.new.lost ≡ false → (self.old.lost ≡ false) × (self.new.entries.items ≡ self.old.entries.items ++ entry ∷ []) }
    {
        if self.entries.push(entry).is_err() {
            self.lost = true;
        }
    }

    fn note_event(&mut self, event: &Option<PortEvent>)
        ensures { self.new.lost ≡ false → (self.old.lost ≡ false) × (self.new.entries.items ≡ self.old.entries.items ++ opened event.now) }
    {
        if let Some(PortEvent::Opened(slot, identity)) = event {
            match identity.copy(self.alloc) {
                Ok(copy) => self.note(Entry::Opened(*slot, copy)),
                Err(_) => self.lost = true,
            }
        }
    }

    fn note_read(&mut self, slot: usize, bytes: &[u8])
        ensures { self.new.lost ≡ false → (self.old.lost ≡ false) × (self.new.entries.items ≡ self.old.entries.items ++ entry.Gave slot bytes.now ∷ []) }
    {
        match Vec::from_slice(self.alloc, bytes) {
            Ok(copy) => self.note(Entry::Gave(slot, Sequence::new(copy))),
            Err(_) => self.lost = true,
        }
    }

    fn note_write(&mut self, slot: usize, bytes: &[u8])
        ensures { self.new.lost ≡ false → (self.old.lost ≡ false) × (self.new.entries.items ≡ self.old.entries.items ++ entry.Took slot bytes.now ∷ []) }
    {
        match Vec::from_slice(self.alloc, bytes) {
            Ok(copy) => self.note(Entry::Took(slot, Sequence::new(copy))),
            Err(_) => self.lost = true,
        }
    }
}

/// Ports that report their history.
#[derive(Drop)]
pub struct Recorded<Q: Ports + Drop> {
    pub ports: Q,
    pub notes: Record,
}

impl<Q: Ports + Drop> Recorded<Q> {
    pub fn new(alloc: Global, ports: Q) -> Recorded<Q> {
        Recorded {
            ports,
            notes: Record::new(alloc),
        }
    }
}

impl<Q: Ports + Drop> Ports for Recorded<Q> {
    ghost use Rattle.std.specs.Prelude.{◌≡◌, false};

    ghost report = { λ p. record { tells = p.notes.lost ≡ false; history = p.notes.entries.items } };

    ghost failures = { λ p. Q.failures p.ports };

    fn next(&mut self) -> Option<PortEvent> {
        let event = self.ports.next();
        self.notes.note_event(&event);
        event
    }

    fn read(&mut self, slot: usize, buffer: &mut [u8]) -> Result<usize, PortFault> {
        match self.ports.read(slot, buffer) {
            Ok(count) => {
                self.notes.note_read(slot, &buffer[..count]);
                Ok(count)
            }
            Err(fault) => Err(fault),
        }
    }

    fn write(&mut self, slot: usize, bytes: &[u8]) -> Result<usize, PortFault> {
        match self.ports.write(slot, bytes) {
            Ok(count) => {
                self.notes.note_write(slot, &bytes[..count]);
                Ok(count)
            }
            Err(fault) => Err(fault),
        }
    }

    fn retry(&mut self, slot: usize, refused: u32) -> Result<(), PortFault> {
        self.ports.retry(slot, refused)
    }

    fn end(&mut self, slot: usize) {
        self.ports.end(slot);
        self.notes.note(Entry::Ended(slot));
    }
}

/// Serves the clients of any ports, and records what they sent and got: all of it is accounted for, as long as there is
/// memory for the record.
pub fn serve_recorded<R: Wait, P: Policy + Drop, Q: Ports + Drop>(
    rt: &R,
    core: &mut Core<P>,
    desk: &mut Desk,
    ports: &mut Recorded<Q>,
)
    requires { desk.old.waiting ≡ [] }
    ensures account { (m : Machine) → Refines core.old m → ports.new.notes.lost ≡ false
        → (entries : List AnEntry) × (made : List Made) × (ports.new.notes.entries.items ≡ ports.old.notes.entries.items ++ entries) × Runs core.old core.new made × Account entries made }
{
    serve_loop(rt, core, desk, ports)
}
