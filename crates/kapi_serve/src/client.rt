ghost use Rattle.std.specs.Prelude.{◌≡◌, ◌⊎◌, ◌<◌, ◌≤◌, ℕ, List, Option, [], ◌++◌, None, true, false, if◌then◌else◌, is_some, option_map};
ghost use Rattle.std.specs.VecDeque.{deque_len, deque_capacity};
ghost use Rattle.kapi_serve.specs.Private.Clients.{seat_of};
ghost use Rattle.kapi_serve.specs.Private.ServerStates.{AdvancesFor, Writes, stage};
ghost use Rattle.kapi_serve.specs.Private.Pieces.{IsCounted, IsSent, owed};
ghost use Rattle.kapi_core.specs.Fingerprints.{is_among};
ghost use Rattle.kapi_core.specs.Refines.{Makes};
ghost use Rattle.kapi_core.specs.declared.event.Answer.TheVariants as answer;
ghost use Rattle.kapi_core.specs.declared.event.Event.TheVariants as event;
ghost use Rattle.kapi_serve.specs.Private.ClientsMatch.{is_called as is_called_of};
ghost use Rattle.kapi_serve.specs.Private.ClientsMatch.{AreMarked, Finishes, IsQuiet, IsServed, Keeps, Tends, Waits};
ghost use Rattle.kapi_publishing.specs.Steps.{step_of};
ghost use Rattle.kapi_serve.specs.Ports.{Adds};
ghost use Rattle.kapi_serve.specs.Publishes.{Publishes};
ghost use Rattle.kapi_serve.specs.declared.client.Flushed.TheVariants as flush;
ghost use Rattle.kapi_serve.specs.declared.client.Phase.TheVariants as phase;
ghost use Rattle.kapi_serve.specs.declared.progress.Progress.TheVariants as progress;

use crate::marks::MARKS;
use crate::pending::Pending;
use crate::port::{PortFault, Ports};
use crate::progress::Progress;
use crate::publishing::Publishing;
use kapi_core::{ConnId, Core, Output};
use kapi_policy::Policy;
use kapi_publishing::Desk;
use std::sync::Wait;

/// The state of a connection.
#[derive(Clone, Copy, PartialEq, Eq)]
pub(crate) enum Phase {
    /// The client's bytes are read and served.
    Open,
    /// The client's bytes have ended; the whole requests among them are still served.
    Ending,
    /// The machine has closed the connection, and the pending bytes are still sent.
    Closed,
}

/// The result of writing.
#[derive(Clone, Copy, PartialEq, Eq)]
pub(crate) enum Flushed {
    /// No bytes were accepted.
    Nothing,
    /// Bytes were accepted.
    Sent,
    /// The slot is broken.
    Failed,
}

/// A connection of the machine on a slot of the ports.
#[derive(Drop)]
pub struct Client {
    pub(crate) slot: usize,
    /// The number of the user that the ports gave the slot.
    pub(crate) user: usize,
    pub(crate) id: ConnId,
    pub(crate) phase: Phase,
    /// Bytes came since the machine last found no request.
    pub(crate) fed: bool,
    /// The fingerprint of the watch that runs on the connection, if one does.
    pub(crate) watching: Option<u64>,
    /// The watch has shown all that is due to it, unless the objects of the machine have changed since.
    pub(crate) shown: bool,
    /// The slot takes no bytes until it reports that it does.
    pub(crate) blocked: bool,
    /// A step found no memory, and is not made again before the ports let it.
    pub(crate) held: bool,
    /// How often in a row steps found no memory.
    pub(crate) refused: u32,
    pub(crate) pending: Pending,
}

fn has(numbers: &[u64], number: u64) -> bool
    ensures { result ≡ is_among numbers.now (Some number) }
{
    numbers.iter().any(|other| *other == number)
}

impl Client {
    /// Whether nothing can be done before the slot reports something, or the objects of the machine change.
    pub(crate) fn is_quiet(&self) -> bool
        ensures { result ≡ true → IsQuiet self.now }
    {
        self.phase == Phase::Open && self.is_done() && self.has_offered()
    }

    /// Whether the machine has answered all that may be answered before the slot takes bytes.
    fn is_done(&self) -> bool
        ensures fed { result ≡ true → self.now.pending.count < 1048576 → self.now.fed ≡ false }
        ensures shown { result ≡ true → self.now.pending.count < 1048576 → is_some self.now.watching ≡ true → self.now.shown ≡ true }
    {
        self.pending.is_full() || !self.fed && self.has_shown()
    }

    /// Whether the slot took all pending bytes, or takes none now.
    fn has_offered(&self) -> bool
        ensures { result ≡ true → self.now.blocked ≡ false → owed self.now.pending ≡ [] }
    {
        self.blocked || self.pending.is_empty()
    }

    /// Whether nothing is due to a watch of the connection, if it has one.
    fn has_shown(&self) -> bool
        ensures { result ≡ true → is_some self.now.watching ≡ true → self.now.shown ≡ true }
    {
        self.watching.is_none() || self.shown
    }

    /// Whether the list has the fingerprint of the connection's watch; without a list, whether the connection has a
    /// watch.
    fn is_called(&self, concerned: &Option<Vec<u64>>) -> bool
        ensures { result ≡ is_called_of (option_map (λ v. v.items) concerned.now) self.now.watching }
    {
        match (self.watching, concerned) {
            (Some(watch), Some(numbers)) => has(numbers.as_slice(), watch),
            (watch, None) => watch.is_some(),
            (None, Some(_)) => false,
        }
    }

    /// Whether the connection has a watch whose fingerprint is marked.
    fn is_marked(&self, marks: &[bool; MARKS]) -> bool
        ensures { result ≡ false → (concerned : Option (List ℕ)) → AreMarked concerned marks.now → is_called_of concerned self.now.watching ≡ false }
    {
        match self.watching {
            Some(watch) => marks[(watch % 64) as usize],
            None => false,
        }
    }

    /// Like `is_called`, but tests the marks first: they rule out most watches that are not called.
    pub(crate) fn is_called_by(&self, marks: &[bool; MARKS], concerned: &Option<Vec<u64>>) -> bool
        requires { AreMarked (option_map (λ v. v.items) concerned.now) marks.now }
        ensures { result ≡ is_called_of (option_map (λ v. v.items) concerned.now) self.now.watching }
    {
        self.is_marked(marks) && self.is_called(concerned)
    }

    /// Writes pending bytes until the slot takes no more.
    pub(crate) fn flush<R: Wait, Q: Ports>(&mut self, rt: &R, ports: &mut Q) -> Flushed
        ensures writes { Writes self.old self.new (Q.report ports.old) (Q.report ports.new) }
        ensures keeps { Keeps self.old self.new }
        ensures offered { result ≡ flush.Nothing → self.new.blocked ≡ false → IsSent self.new.pending }
    {
        let mut flushed = Flushed::Nothing;
        for _ in rt.forever() {
            match self.write(ports) {
                Flushed::Sent => flushed = Flushed::Sent,
                Flushed::Nothing => return flushed,
                Flushed::Failed => return Flushed::Failed,
            }
        }
        unreachable!()
    }

    /// Makes one write. If the slot accepts no byte, this counts as `WouldBlock`.
    fn write<Q: Ports>(&mut self, ports: &mut Q) -> Flushed
        ensures writes { Writes self.old self.new (Q.report ports.old) (Q.report ports.new) }
        ensures keeps { Keeps self.old self.new }
        ensures offered { result ≡ flush.Nothing → self.new.blocked ≡ false → IsSent self.new.pending }
    {
        if self.blocked || self.pending.is_empty() {
            return Flushed::Nothing;
        }
        self.pending.advance();
        match ports.write(self.slot, self.pending.next()) {
            Ok(0) => self.block(),
            Ok(count) => {
                self.pending.pass(count);
                Flushed::Sent
            }
            Err(PortFault::WouldBlock) => self.block(),
            Err(PortFault::Failed) => Flushed::Failed,
        }
    }

    /// Notes that the slot takes no bytes now.
    fn block(&mut self) -> Flushed
        ensures seat { seat_of self.new ≡ seat_of self.old }
        ensures keeps { Keeps self.old self.new }
        ensures blocked { self.new.blocked ≡ true }
        ensures nothing { result ≡ flush.Nothing }
    {
        self.blocked = true;
        Flushed::Nothing
    }

    /// Whether the machine may answer more before the slot takes bytes.
    fn is_open(&self) -> bool
        ensures going { result ≡ true → self.now.phase ≡ phase.Closed → ⊥ }
        ensures full { result ≡ false → (self.now.phase ≡ phase.Closed) ⊎ (1048576 ≤ self.now.pending.count) }
    {
        self.phase != Phase::Closed && !self.pending.is_full()
    }

    /// Whether a step may be made: there is room for its answer, all steps are published, and it is not held back. If
    /// not, there was no memory for it.
    fn is_ready(&mut self, publishing: &Publishing, desk: &Desk) -> bool
        ensures room { result ≡ true → deque_len self.new.pending.behind < deque_capacity self.new.pending.behind }
        ensures waiting { result ≡ true → desk.now.waiting ≡ [] }
        ensures kept { result ≡ true → publishing.now.kept ≡ None }
        ensures keeps { Keeps self.old self.new }
        ensures waits { Waits self.old self.new }
        ensures shown { self.new.shown ≡ self.old.shown }
    {
        if self.held {
            return false;
        }
        if self.pending.reserve().is_err() {
            return false;
        }
        publishing.is_free(desk)
    }

    /// Answers the next request. At the end of the client's bytes the connection is closed when there is none.
    pub(crate) fn serve<R: Wait, P: Policy + Drop>(
        &mut self,
        rt: &R,
        core: &mut Core<P>,
        desk: &mut Desk,
        publishing: &mut Publishing,
    ) -> Progress
        ensures goes { AdvancesFor (stage core.old desk.old publishing.old) (stage core.new desk.new publishing.new) self.old self.new }
        ensures tends { Tends core.old core.new self.old self.new }
        ensures still { result ≡ progress.Still → Waits self.old self.new × IsServed self.new }
    {
        if !self.fed {
            return Progress::Still;
        }
        if !self.is_open() {
            return Progress::Still;
        }
        if !self.is_ready(publishing, desk) {
            return Progress::Starved;
        }
        match core.serve(self.id) {
            Ok(Some(output)) => {
                self.watching = core.fingerprint(self.id);
                self.shown = false;
                self.send(rt, desk, publishing, output);
                Progress::Made
            }
            Ok(None) => {
                self.fed = false;
                self.finish(core)
            }
            Err(_refused) => self.hold(),
        }
    }

    /// Shows the next event of the connection's watch.
    pub(crate) fn pump<R: Wait, P: Policy + Drop>(
        &mut self,
        rt: &R,
        core: &mut Core<P>,
        desk: &mut Desk,
        publishing: &mut Publishing,
    ) -> Progress
        ensures goes { AdvancesFor (stage core.old desk.old publishing.old) (stage core.new desk.new publishing.new) self.old self.new }
        ensures tends { Tends core.old core.new self.old self.new }
        ensures still { result ≡ progress.Still → Waits self.old self.new × Keeps self.old self.new }
        ensures shown { self.new.shown ≡ true → (self.old.shown ≡ true) ⊎ Makes core.old core.new (event.Pump self.new.id) answer.Nothing }
    {
        if self.watching.is_none() {
            return Progress::Still;
        }
        if !self.is_open() {
            return Progress::Still;
        }
        if !self.is_ready(publishing, desk) {
            return Progress::Starved;
        }
        match core.pump(self.id) {
            Ok(Some(output)) => {
                self.fed = true;
                self.watching = core.fingerprint(self.id);
                self.shown = false;
                self.send(rt, desk, publishing, output);
                Progress::Made
            }
            Ok(None) => {
                self.shown = true;
                Progress::Still
            }
            Err(_starved) => self.hold(),
        }
    }

    /// Moves a watch on if it has shown all its due events; otherwise shows the next one. A client without a watch stays
    /// as it is, and so does one that takes no more bytes.
    pub(crate) fn pass<R: Wait, P: Policy + Drop>(
        &mut self,
        rt: &R,
        core: &mut Core<P>,
        desk: &mut Desk,
        publishing: &mut Publishing,
    )
        ensures goes { AdvancesFor (stage core.old desk.old publishing.old) (stage core.new desk.new publishing.new) self.old self.new }
        ensures tends { Tends core.old core.new self.old self.new }
        ensures quiet { IsQuiet self.old → self.new ≡ self.old }
    {
        if self.is_due() {
            let _shown = self.pump(rt, core, desk, publishing);
            return;
        }
        let _skipped = self.skip(core);
    }

    /// Whether an event may be due to a watch, and the client takes it.
    fn is_due(&self) -> bool
        ensures { result ≡ true → IsQuiet self.now → ⊥ }
    {
        self.watching.is_some() && !self.shown && !self.pending.is_full()
    }

    /// Moves the watch on if it has shown all that was due to it and nothing is due since, and returns whether it did.
    fn skip<P: Policy + Drop>(&self, core: &mut Core<P>) -> bool
        ensures skipped { result ≡ true → Makes core.old core.new (event.Pump self.now.id) answer.Nothing }
        ensures going { result ≡ true → self.now.phase ≡ phase.Closed → ⊥ }
        ensures same { result ≡ false → core.new ≡ core.old }
    {
        self.shown && self.is_open() && core.pass(self.id)
    }

    /// Whether a step that is held back may be made: at once if none was refused, else as the ports say.
    pub(crate) fn ask<Q: Ports>(&self, ports: &mut Q) -> Result<(), PortFault>
        ensures { Adds (Q.report ports.old) (Q.report ports.new) [] }
    {
        if self.refused == 0 {
            return Ok(());
        }
        ports.retry(self.slot, self.refused)
    }

    /// Holds the next step back, as this one found no memory.
    fn hold(&mut self) -> Progress
        ensures waits { Waits self.old self.new }
        ensures keeps { Keeps self.old self.new }
        ensures shown { self.new.shown ≡ self.old.shown }
        ensures held { (self.new.held ≡ true) × (self.old.refused ≤ self.new.refused) }
        ensures starved { result ≡ progress.Starved }
    {
        self.held = true;
        self.refused = self.refused.saturating_add(1);
        Progress::Starved
    }

    /// Puts the machine's answer to the pending bytes, and publishes what it changed in the policy.
    fn send<R: Wait>(
        &mut self,
        rt: &R,
        desk: &mut Desk,
        publishing: &mut Publishing,
        output: Output,
    )
        requires room { deque_len self.old.pending.behind < deque_capacity self.old.pending.behind }
        requires waiting { desk.old.waiting ≡ [] }
        requires kept { publishing.old.kept ≡ None }
        ensures shows { Publishes desk.old desk.new publishing.old.kept publishing.new.kept (step_of output.policy_changes) }
        ensures slot { self.new.slot ≡ self.old.slot }
        ensures id { self.new.id ≡ self.old.id }
        ensures owed { owed self.new.pending ≡ owed self.old.pending ++ output.bytes }
        ensures phase { self.new.phase ≡ (if output.close then phase.Closed else self.old.phase) }
        ensures fed { self.new.fed ≡ self.old.fed }
        ensures watching { self.new.watching ≡ self.old.watching }
        ensures shown { self.new.shown ≡ self.old.shown }
        ensures counted { IsCounted self.old.pending → IsCounted self.new.pending }
    {
        let Output {
            bytes,
            close,
            policy_changes,
        } = output;
        self.pending.push(bytes);
        self.refused = 0;
        if close {
            self.phase = Phase::Closed;
        }
        publishing.publish_step(rt, desk, policy_changes);
    }

    /// Closes the connection where the client's bytes have ended.
    fn finish<P: Policy + Drop>(&mut self, core: &mut Core<P>) -> Progress
        ensures { Finishes core.old core.new self.old self.new result }
    {
        match self.phase {
            Phase::Ending => {
                core.close(self.id);
                self.phase = Phase::Closed;
                self.watching = None;
                Progress::Made
            }
            Phase::Open => Progress::Still,
            Phase::Closed => Progress::Still,
        }
    }

    /// Whether nothing is left to be done, or nothing can be done after the result of writing.
    pub(crate) fn is_over(&self, flushed: Flushed) -> bool
        ensures whole { result ≡ false → flushed ≡ flush.Failed → ⊥ }
        ensures left { result ≡ false → self.now.phase ≡ phase.Closed → IsSent self.now.pending → ⊥ }
    {
        flushed == Flushed::Failed || self.phase == Phase::Closed && self.pending.is_empty()
    }
}
