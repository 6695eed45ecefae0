ghost use Rattle.std.specs.Prelude.{◌≡◌, ◌⊎◌, ◌-◌, ◌<◌, ◌≤◌, ℕ, List, Option, [], ◌∷◌, ◌++◌, true, None, IfSome, ◌==◌, length, map, option_map, set, suc, false, vec_len, vec_capacity};
ghost use Rattle.std.specs.List.{HoldsAt, position};
ghost use Rattle.kapi_core.specs.Fingerprints.{fingerprint_on, is_among, is_concerned};
ghost use Rattle.kapi_core.specs.Machine.{Machine, link_at};
ghost use Rattle.kapi_core.specs.Refines.{Refines};
ghost use Rattle.kapi_serve.specs.Acts.{IsFree};
ghost use Rattle.kapi_serve.specs.Advances.{Advances};
ghost use Rattle.kapi_serve.specs.Private.Clients.{freed, freed_on, others, seats_of};
ghost use Rattle.kapi_serve.specs.Private.ServerStates.{Ends, FeedsOrEnds, Moves, MovesAfter, stage, unasked};
ghost use Rattle.kapi_serve.specs.Private.ClientsMatch.{AreCalled, AreMarked, AreRoused, IsNew, IsNumbered, IsQuiet, IsWithin, ClientsMatch, ClientsMatchAfter};
ghost use Rattle.kapi_serve.specs.declared.client.Client.{Client as AClient};
ghost use Rattle.kapi_serve.specs.declared.client.Phase.TheVariants as phase;
ghost use Rattle.kapi_serve.specs.declared.port.Entry.TheVariants as entry;
ghost use Rattle.kapi_serve.specs.declared.progress.Progress.TheVariants as progress;

use crate::client::{Client, Phase};
use crate::marks::{MARKS, marks_of};
use crate::pending::{Pending, Unsent};
use crate::port::{PortFault, Ports};
use crate::progress::Progress;
use crate::publishing::Publishing;
use kapi_core::{ConnId, Core};
use kapi_model::Identity;
use kapi_policy::Policy;
use kapi_publishing::Desk;
use std::alloc::Global;
use std::sync::Wait;

/// After so many changes all watches are woken, so each stays within the kept changes, even if none concerned it.
const WAKE_ALL_AFTER: u64 = 256;

/// The number of list positions that are remembered; more than the connections open at a time.
const PLACES: usize = 512;

/// The places from the first to the last connection at which something may be done.
#[derive(Drop)]
pub(crate) struct Awake {
    pub(crate) start: usize,
    pub(crate) end: usize,
}

impl Awake {
    /// Takes a place in.
    pub(crate) fn add(&mut self, place: usize)
        requires { place < 18446744073709551615 }
        ensures within { IsWithin self.new place }
        ensures others { (other : ℕ) → IsWithin self.old other → IsWithin self.new other }
    {
        if self.start < self.end {
            self.start = self.start.min(place);
            self.end = self.end.max(place + 1);
        } else {
            self.start = place;
            self.end = place + 1;
        }
    }

    /// Takes in the place before the first, since connections move up when one leaves.
    pub(crate) fn lower(&mut self)
        ensures { self.new ≡ record self.old { start = self.old.start - 1 } }
    {
        self.start = self.start.saturating_sub(1);
    }
}

/// The connections that are served, in the order of their numbers.
#[derive(Drop)]
pub(crate) struct Clients {
    alloc: Global,
    pub(crate) list: Vec<Client>,
    /// Where something may be done before a slot reports anything, or the objects change. It is a pair of places, so
    /// that no memory is needed to wake a connection.
    pub(crate) awake: Awake,
    /// The revision of the objects when connections were last woken for a change.
    pub(crate) woken: u64,
    /// The revision when each watch was last woken or moved on.
    roused: u64,
    /// The connection whose step, held back for want of memory, was last allowed again.
    tried: u64,
    /// The list positions at which connections were last found, by their slots modulo `PLACES`.
    places: [usize; PLACES],
    pub(crate) unsent: Unsent,
}

/// The result of a read.
#[derive(Clone, Copy, PartialEq, Eq)]
pub(crate) enum Pulled {
    /// Bytes were fed to the machine.
    Fed,
    /// There is no more to be read now, or ever.
    Stopped,
}

impl Clients {
    pub(crate) fn new(alloc: Global) -> Clients
        ensures seats { seats_of result.list.items ≡ [] }
        ensures stands { (m : Machine) → IsNumbered m → ClientsMatch m result }
    {
        Clients {
            alloc,
            list: Vec::new(alloc),
            awake: Awake { start: 0, end: 0 },
            woken: 0,
            roused: 0,
            tried: 0,
            places: [0; PLACES],
            unsent: Unsent::new(),
        }
    }

    /// Whether there is a connection at a place, at which something may be done.
    pub(crate) fn is_awake(&self, place: usize) -> bool
        ensures bound { result ≡ true → place < length self.now.list.items }
        ensures quiet { result ≡ false → place < length self.now.list.items → HoldsAt (λ client. IsQuiet client) self.now.list.items place }
    {
        match self.list.get(place) {
            Some(client) => !client.is_quiet(),
            None => false,
        }
    }

    /// Narrows the awake places to those from the first to the last at which something may be done.
    pub(crate) fn narrow(&mut self)
        ensures list { self.new.list ≡ self.old.list }
        ensures stands { (m : Machine) → ClientsMatch m self.old → ClientsMatch m self.new }
    {
        let (mut start, mut end) = (self.awake.start, self.awake.end);
        while start < end {
            if !self.is_awake(start) {
                start += 1;
            } else if !self.is_awake(end - 1) {
                end -= 1;
            } else {
                break;
            }
        }
        self.awake = Awake { start, end };
    }

    /// Opens a connection for a client; its slot is ended if there is no room for it.
    pub(crate) fn open<P: Policy + Drop, Q: Ports>(
        &mut self,
        core: &mut Core<P>,
        ports: &mut Q,
        slot: usize,
        identity: Identity,
    )
        ensures moves { MovesAfter (entry.Opened slot identity) core.old core.new self.old self.new (Q.report ports.old) (Q.report ports.new) }
        ensures stands { ClientsMatchAfter core.old core.new self.old self.new }
    {
        self.forget(core, slot);
        if self.list.reserve(1).is_err() {
            return ports.end(slot);
        }
        let user = ports.user(slot);
        match core.open(identity) {
            Ok(id) => self.add(slot, user, id),
            Err(_refused) => ports.end(slot),
        }
    }

    fn add(&mut self, slot: usize, user: usize, id: ConnId)
        requires { vec_len self.old.list < vec_capacity self.old.list }
        ensures seats { seats_of self.new.list.items ≡ seats_of self.old.list.items ++ record { slot = slot; conn = id; owed = [] } ∷ [] }
        ensures fresh { (client : AClient) × (self.new.list.items ≡ self.old.list.items ++ client ∷ []) × (client.id ≡ id) × IsNew client }
        ensures awake { self.new.awake ≡ self.old.awake }
    {
        self.list.push_reserved(Client {
            slot,
            user,
            id,
            phase: Phase::Open,
            fed: false,
            watching: None,
            shown: false,
            blocked: false,
            held: false,
            refused: 0,
            pending: Pending::new(self.alloc),
        });
    }

    /// The first connection on a slot, if there is one.
    fn first_on(&self, slot: usize) -> Option<usize>
        ensures { result ≡ position (λ client. client.slot == slot) self.now.list.items }
    {
        self.list.iter().position(|client| client.slot == slot)
    }

    /// The place of the connection on a slot, if there is one.
    fn place(&self, slot: usize) -> Option<usize>
        ensures bound { IfSome result (λ i. i < length self.now.list.items) }
        ensures found { IfSome result (λ i. HoldsAt (λ client. client.slot ≡ slot) self.now.list.items i) }
        ensures free { result ≡ None → IsFree slot (seats_of self.now.list.items) }
        ensures first { result ≡ position (λ client. client.slot == slot) self.now.list.items }
    {
        self.first_on(slot)
    }

    /// Whether the connection at a place, if there is one, is on a slot.
    fn is_on(&self, place: usize, slot: usize) -> bool
        ensures bound { result ≡ true → place < length self.now.list.items }
        ensures on { result ≡ true → HoldsAt (λ client. client.slot ≡ slot) self.now.list.items place }
    {
        match self.list.get(place) {
            Some(client) => client.slot == slot,
            None => false,
        }
    }

    /// The place of a connection on a slot, if there is one. It is looked for first where one was last found.
    fn find(&self, slot: usize) -> Option<usize>
        ensures bound { IfSome result (λ i. i < length self.now.list.items) }
        ensures found { IfSome result (λ i. HoldsAt (λ client. client.slot ≡ slot) self.now.list.items i) }
    {
        let place = self.places[slot % PLACES];
        if self.is_on(place, slot) {
            Some(place)
        } else {
            self.place(slot)
        }
    }

    /// Closes the connection on a slot that is given to another client.
    fn forget<P: Policy + Drop>(&mut self, core: &mut Core<P>, slot: usize)
        ensures moves { Moves core.old core.new self.old self.new unasked unasked }
        ensures free { IsFree slot (seats_of self.new.list.items) }
        ensures stands { ClientsMatchAfter core.old core.new self.old self.new }
    {
        while let Some(index) = self.place(slot) {
            let client = self.list.remove(index);
            self.awake.lower();
            self.unsent.settle(client.user, client.pending.count(), 0);
            core.close(client.id);
        }
    }

    /// Closes a connection and ends its slot. The pending bytes are not sent.
    pub(crate) fn end<P: Policy + Drop, Q: Ports>(
        &mut self,
        core: &mut Core<P>,
        ports: &mut Q,
        index: usize,
    )
        requires { index < length self.old.list.items }
        ensures { Ends index core.old core.new self.old self.new (Q.report ports.old) (Q.report ports.new) }
    {
        let client = self.list.remove(index);
        self.awake.lower();
        self.unsent.settle(client.user, client.pending.count(), 0);
        core.close(client.id);
        ports.end(client.slot);
    }

    /// Lets steps that found no memory be made again, one connection after the other, as far as the ports let them.
    pub(crate) fn retry<P: Policy + Drop, Q: Ports>(&mut self, core: &mut Core<P>, ports: &mut Q)
        ensures moves { Moves core.old core.new self.old self.new (Q.report ports.old) (Q.report ports.new) }
        ensures stands { ClientsMatchAfter core.old core.new self.old self.new }
    {
        for _ in self.awake.start..self.awake.end {
            let Some(index) = self.next_held() else {
                return;
            };
            if !self.retry_at(core, ports, index) {
                return;
            }
        }
    }

    /// Allows the held step of the connection at a place, unless the ports defer it, or ends the connection if its slot
    /// is broken. Returns whether the ports may be asked about another connection.
    fn retry_at<P: Policy + Drop, Q: Ports>(
        &mut self,
        core: &mut Core<P>,
        ports: &mut Q,
        index: usize,
    ) -> bool
        requires { index < length self.old.list.items }
        ensures moves { Moves core.old core.new self.old self.new (Q.report ports.old) (Q.report ports.new) }
        ensures stands { ClientsMatchAfter core.old core.new self.old self.new }
    {
        match self.list[index].ask(ports) {
            Ok(()) => {
                self.release(index);
                true
            }
            Err(PortFault::WouldBlock) => false,
            Err(PortFault::Failed) => {
                self.end(core, ports, index);
                true
            }
        }
    }

    /// The place of the next connection with a step held back: the first after the connection `tried`, else the first
    /// of all.
    fn next_held(&self) -> Option<usize>
        ensures bound { IfSome result (λ i. i < length self.now.list.items) }
        ensures held { IfSome result (λ i. HoldsAt (λ client. client.held ≡ true) self.now.list.items i) }
    {
        let tried = self.tried;
        let behind = self
            .list
            .iter()
            .position(|client| client.held && client.id.0 > tried);
        match behind {
            Some(index) => Some(index),
            None => self.list.iter().position(|client| client.held),
        }
    }

    /// Lets the step of the connection at a place be made.
    fn release(&mut self, index: usize)
        requires { index < length self.old.list.items }
        ensures seats { seats_of self.new.list.items ≡ seats_of self.old.list.items }
        ensures stands { (m : Machine) → ClientsMatch m self.old → ClientsMatch m self.new }
        ensures released { HoldsAt (λ client. client.held ≡ false) self.new.list.items index }
    {
        self.tried = self.list[index].id.0;
        self.list[index].held = false;
        self.awake.add(index);
    }

    /// Notes that a slot takes bytes again, and wakes its connection.
    pub(crate) fn unblock(&mut self, slot: usize)
        ensures freed { self.new.list.items ≡ freed_on slot self.old.list.items }
        ensures seats { seats_of self.new.list.items ≡ seats_of self.old.list.items }
        ensures stands { (m : Machine) → ClientsMatch m self.old → ClientsMatch m self.new }
    {
        match self.place(slot) {
            Some(index) => self.free(index),
            None => {}
        }
    }

    /// Notes that all slots may take bytes again, and wakes the connections.
    pub(crate) fn unblock_all(&mut self)
        ensures freed { self.new.list.items ≡ map freed self.old.list.items }
        ensures seats { seats_of self.new.list.items ≡ seats_of self.old.list.items }
        ensures stands { (m : Machine) → ClientsMatch m self.old → ClientsMatch m self.new }
    {
        for index in 0..self.list.len() {
            self.free(index);
        }
    }

    /// Notes that the slot of the connection at a place takes bytes again, and wakes the connection.
    fn free(&mut self, index: usize)
        requires { index < length self.old.list.items }
        ensures freed { HoldsAt (λ client. self.new.list.items ≡ set self.old.list.items index (freed client)) self.old.list.items index }
        ensures count { length self.new.list.items ≡ length self.old.list.items }
        ensures seats { seats_of self.new.list.items ≡ seats_of self.old.list.items }
        ensures stands { (m : Machine) → ClientsMatch m self.old → ClientsMatch m self.new }
    {
        self.list[index].blocked = false;
        self.awake.add(index);
    }

    /// Before the DELETE of the connection at a place is answered, moves each watch on: the request may make as many
    /// changes at once as are kept.
    pub(crate) fn pass_before<R: Wait, P: Policy + Drop>(
        &mut self,
        rt: &R,
        core: &mut Core<P>,
        desk: &mut Desk,
        publishing: &mut Publishing,
        index: usize,
    ) -> Progress
        ensures goes { Advances (stage core.old desk.old publishing.old (seats_of self.old.list.items)) (stage core.new desk.new publishing.new (seats_of self.new.list.items)) }
        ensures stands { ClientsMatchAfter core.old core.new self.old self.new }
        ensures awake { self.new.awake ≡ self.old.awake }
        ensures still { result ≡ progress.Still → (core.new ≡ core.old) × (self.new.list ≡ self.old.list) }
        ensures unstarved { (result ≡ progress.Still) ⊎ (result ≡ progress.Made) }
    {
        if !self.is_before_deletion(core, index) {
            return Progress::Still;
        }
        self.pass_watches(rt, core, desk, publishing);
        self.roused = core.revision();
        Progress::Made
    }

    /// Whether an awake connection may answer a DELETE next, and the objects have changed since watches were moved on.
    fn is_before_deletion<P: Policy + Drop>(&self, core: &Core<P>, index: usize) -> bool {
        if !self.is_awake(index) {
            return false;
        }
        let client = &self.list[index];
        client.fed && self.roused != core.revision() && core.is_deletion(client.id)
    }

    /// Moves each watch on.
    fn pass_watches<R: Wait, P: Policy + Drop>(
        &mut self,
        rt: &R,
        core: &mut Core<P>,
        desk: &mut Desk,
        publishing: &mut Publishing,
    )
        ensures goes { Advances (stage core.old desk.old publishing.old (seats_of self.old.list.items)) (stage core.new desk.new publishing.new (seats_of self.new.list.items)) }
        ensures stands { ClientsMatchAfter core.old core.new self.old self.new }
        ensures awake { self.new.awake ≡ self.old.awake }
    {
        for index in 0..self.list.len() {
            self.pass_at(rt, core, desk, publishing, index);
        }
    }

    /// Moves the watch of the connection at a place on.
    fn pass_at<R: Wait, P: Policy + Drop>(
        &mut self,
        rt: &R,
        core: &mut Core<P>,
        desk: &mut Desk,
        publishing: &mut Publishing,
        index: usize,
    )
        requires { index < length self.old.list.items }
        ensures goes { Advances (stage core.old desk.old publishing.old (seats_of self.old.list.items)) (stage core.new desk.new publishing.new (seats_of self.new.list.items)) }
        ensures stands { ClientsMatchAfter core.old core.new self.old self.new }
        ensures awake { self.new.awake ≡ self.old.awake }
        ensures count { length self.new.list.items ≡ length self.old.list.items }
    {
        let client = &mut self.list[index];
        let before = client.pending.count();
        client.pass(rt, core, desk, publishing);
        self.unsent
            .settle(client.user, before, client.pending.count());
    }

    /// Wakes each connection whose watch may be concerned by a change since the last waking.
    pub(crate) fn wake<P: Policy + Drop>(&mut self, core: &Core<P>) -> Progress
        ensures seats { seats_of self.new.list.items ≡ seats_of self.old.list.items }
        ensures stands { (m : Machine) → ClientsMatch m self.old → ClientsMatch m self.new }
        ensures still { result ≡ progress.Still → self.new ≡ self.old }
        ensures unstarved { (result ≡ progress.Still) ⊎ (result ≡ progress.Made) }
        ensures woken { self.new.woken ≡ core.now.store.revision }
        ensures made { result ≡ progress.Made → (m : Machine) → Refines core.now m → ClientsMatch m self.old → AreRoused m self.old.woken self.new.list.items }
    {
        let revision = core.revision();
        if revision == self.woken {
            return Progress::Still;
        }
        let concerned = self.concerned(core);
        self.rouse_all(&concerned);
        self.woken = revision;
        self.roused = match concerned {
            Some(_) => self.roused,
            None => revision,
        };
        Progress::Made
    }

    /// Wakes each connection whose watch has its fingerprint in the list; without a list, each connection with a watch.
    fn rouse_all(&mut self, concerned: &Option<Vec<u64>>)
        ensures seats { seats_of self.new.list.items ≡ seats_of self.old.list.items }
        ensures stands { (m : Machine) → ClientsMatch m self.old → ClientsMatch m self.new }
        ensures roused { AreCalled (option_map (λ v. v.items) concerned.now) (length self.new.list.items) self.new.list.items }
    {
        let marks = marks_of(concerned);
        let mut from = 0;
        while let Some(index) = self.first_called(from, &marks, concerned) {
            self.rouse(index);
            from = index + 1;
        }
    }

    /// The place of the next connection, from a place on, whose watch has its fingerprint in the list; without a list,
    /// of the next connection with a watch. Most changes concern few watches: this test is all that the others cost.
    #[tactic(auto, using(crate::proofs::Tending::called_kept))]
    fn first_called(
        &self,
        from: usize,
        marks: &[bool; MARKS],
        concerned: &Option<Vec<u64>>,
    ) -> Option<usize>
        requires { AreMarked (option_map (λ v. v.items) concerned.now) marks.now }
        ensures bound { IfSome result (λ i. i < length self.now.list.items) }
        ensures later { IfSome result (λ i. from ≤ i) }
        ensures passed { IfSome result (λ i. AreCalled (option_map (λ v. v.items) concerned.now) from self.now.list.items
            → AreCalled (option_map (λ v. v.items) concerned.now) i self.now.list.items) }
        ensures none { result ≡ None → AreCalled (option_map (λ v. v.items) concerned.now) from self.now.list.items
            → AreCalled (option_map (λ v. v.items) concerned.now) (length self.now.list.items) self.now.list.items }
    {
        for index in from..self.list.len() {
            if self.list[index].is_called_by(marks, concerned) {
                return Some(index);
            }
        }
        None
    }

    /// The fingerprints of the watches that the changes since the last waking may concern, or none if all watches are
    /// to be woken. Once in a while all are, so that no watch falls behind the kept changes.
    fn concerned<P: Policy + Drop>(&self, core: &Core<P>) -> Option<Vec<u64>>
        ensures { IfSome result (λ v. (m : Machine) → Refines core.now m → (id : ℕ) → is_concerned m id self.now.woken ≡ true → is_among v.items (fingerprint_on (link_at id m)) ≡ true) }
    {
        if core.revision().saturating_sub(self.roused) >= WAKE_ALL_AFTER {
            return None;
        }
        core.fingerprints_after(self.woken)
    }

    /// Wakes the connection at a place and marks its watch as having something to show.
    #[tactic(auto, using(crate::proofs::Tending::called_set))]
    fn rouse(&mut self, index: usize)
        requires { index < length self.old.list.items }
        ensures seats { seats_of self.new.list.items ≡ seats_of self.old.list.items }
        ensures count { length self.new.list.items ≡ length self.old.list.items }
        ensures stands { (m : Machine) → ClientsMatch m self.old → ClientsMatch m self.new }
        ensures roused { (concerned : Option (List ℕ)) → AreCalled concerned index self.old.list.items → AreCalled concerned (suc index) self.new.list.items }
    {
        self.list[index].shown = false;
        self.awake.add(index);
    }

    /// Reads a piece from a slot and feeds it.
    pub(crate) fn read_slot<P: Policy + Drop, Q: Ports>(
        &mut self,
        core: &mut Core<P>,
        ports: &mut Q,
        slot: usize,
        buffer: &mut [u8],
    ) -> Pulled
        ensures moves { Moves core.old core.new self.old self.new (Q.report ports.old) (Q.report ports.new) }
        ensures others { others slot (seats_of self.new.list.items) ≡ others slot (seats_of self.old.list.items) }
        ensures stands { ClientsMatchAfter core.old core.new self.old self.new }
    {
        let Some(index) = self.find(slot) else {
            return Pulled::Stopped;
        };
        self.places[slot % PLACES] = index;
        self.read_slot_at(core, ports, slot, index, buffer)
    }

    /// Reads a piece from the slot of the connection at a place and feeds it.
    fn read_slot_at<P: Policy + Drop, Q: Ports>(
        &mut self,
        core: &mut Core<P>,
        ports: &mut Q,
        slot: usize,
        index: usize,
        buffer: &mut [u8],
    ) -> Pulled
        requires bound { index < length self.old.list.items }
        requires found { HoldsAt (λ client. client.slot ≡ slot) self.old.list.items index }
        ensures moves { Moves core.old core.new self.old self.new (Q.report ports.old) (Q.report ports.new) }
        ensures others { others slot (seats_of self.new.list.items) ≡ others slot (seats_of self.old.list.items) }
        ensures stands { ClientsMatchAfter core.old core.new self.old self.new }
    {
        if self.list[index].phase != Phase::Open {
            return Pulled::Stopped;
        }
        self.awake.add(index);
        match ports.read(slot, buffer) {
            Ok(0) => {
                self.reach_end(index);
                Pulled::Stopped
            }
            Ok(count) => self.feed(core, ports, index, &buffer[..count]),
            Err(PortFault::WouldBlock) => Pulled::Stopped,
            Err(PortFault::Failed) => {
                self.end(core, ports, index);
                Pulled::Stopped
            }
        }
    }

    /// Notes that the client's bytes have ended.
    fn reach_end(&mut self, index: usize)
        requires { index < length self.old.list.items }
        ensures seats { seats_of self.new.list.items ≡ seats_of self.old.list.items }
        ensures stands { IsWithin self.old.awake index → (m : Machine) → ClientsMatch m self.old → ClientsMatch m self.new }
    {
        let client = &mut self.list[index];
        client.phase = Phase::Ending;
        client.fed = true;
    }

    /// Feeds a piece; a connection that cannot take it is closed.
    fn feed<P: Policy + Drop, Q: Ports>(
        &mut self,
        core: &mut Core<P>,
        ports: &mut Q,
        index: usize,
        piece: &[u8],
    ) -> Pulled
        requires bound { index < length self.old.list.items }
        requires reading { HoldsAt (λ client. client.phase ≡ phase.Open) self.old.list.items index }
        ensures stands { IsWithin self.old.awake index → ClientsMatchAfter core.old core.new self.old self.new }
        ensures feeds { FeedsOrEnds index piece.now core.old core.new self.old self.new (Q.report ports.old) (Q.report ports.new) }
    {
        match core.feed(self.list[index].id, piece) {
            Ok(()) => {
                self.list[index].fed = true;
                Pulled::Fed
            }
            Err(_refused) => {
                self.end(core, ports, index);
                Pulled::Stopped
            }
        }
    }
}
