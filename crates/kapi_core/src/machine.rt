ghost use Rattle.std.specs.Prelude.{true, false, None, Ok, ℕ, ◌≡◌, ◌≤◌, ◌&&◌, nat_lt, nat_le, length, IfOk, IfSome, IsTrue, if◌then◌else◌};
ghost use Rattle.std.specs.BTreeMap.{is_at};
ghost use Rattle.std.specs.Map.{remove_entry};
ghost use Rattle.std.specs.Ordering.{nat_cmp};
ghost use Rattle.kapi_core.specs.Fingerprints.{fingerprint_on, is_among, is_concerned};
ghost use Rattle.kapi_core.specs.Machine.{Machine, is_last, link_at, with_rechecks};
ghost use Rattle.kapi_core.specs.Limits.{last_first};
ghost use Rattle.kapi_core.specs.Opening.{empty, opening};
ghost use Rattle.kapi_core.specs.Table.{fits};
ghost use Rattle.kapi_core.specs.Refines.{HasOpened};
ghost use Rattle.kapi_core.specs.Refines.{Opens, TakesIn, Sends, Makes, Loads, Refines, Turns};
ghost use Rattle.kapi_core.specs.declared.event.Event.TheVariants as Event;
ghost use Rattle.kapi_core.specs.declared.event.Answer.TheVariants as Answer;
ghost use Rattle.kapi_policy.specs.Objects.{no_objects};

use crate::connection::Connection;
use crate::connections::{advance_watch, close_at, feed_at, finish_request};
use crate::event::{ConnId, OpenError, Output, Turned};
use crate::fingerprint::{fingerprint_of_scope, fingerprints_of};
use crate::opening::open_objects;
use crate::write::{load_object, make_turn, make_write};
use kapi_aggregation::Tracker;
use kapi_answer::{After, LoadError, Prepared, answer, event_reply, recheck};
use kapi_http::{FeedError, Inbox};
use kapi_model::{Identity, ResourceRow};
use kapi_policy::{Policy, PolicyStep};
use kapi_store::Store;
use kapi_text::{Memory, Sequence};
use kapi_watch::Next;
use std::alloc::Global;
use std::collections::BTreeMap;
use std::marker::Model;

/// The largest number of open connections.
pub const OPEN_CONNECTIONS: usize = 256;

/// The last number that a connection may have.
pub const LAST_CONNECTION: u64 = 999_999_999_999_999_999;

/// The machine: the objects, the policy of the roles and bindings among them, the marks of the cluster roles that may
/// differ from their unions, and the open connections.
pub struct Core<P: Policy + Drop> {
    alloc: Global,
    store: Store,
    policy: P,
    tracker: Tracker,
    connections: BTreeMap<u64, Connection>,
    next_id: u64,
    /// The rights of each watch are rechecked at each of its events.
    rechecks: bool,
}

// `Drop` is written out, so that a caller does not prove again how each part is dropped.
impl<P: Policy + Drop> Drop for Core<P> {
    fn drop(self) {
        let Core {
            alloc: _,
            store: _,
            policy: _,
            tracker: _,
            connections: _,
            next_id: _,
            rechecks: _,
        } = self;
    }
}

impl<P: Policy + Drop> Model for Core<P> {
    ghost use Rattle.std.specs.Coded.{codes};
    ghost use Rattle.kapi_object.specs.contracts.object.Object as held;
    ghost use Rattle.kapi_store.specs.contracts.change.Change as changed;
    ghost use Rattle.kapi_core.specs.Running.{Running};

    ghost Value = { Running };

    ghost coded = { Prim.hlevel (codes, held.the_row.coded, changed.the_row.coded) };

    ghost view = { λ c. record { store = c.store; policy = P.content c.policy; marks = c.tracker; connections = c.connections.entries; next_id = c.next_id; rechecks = c.rechecks } };
}

impl<P: Policy + Drop> Core<P> {
    /// A machine with the opening objects at the revisions after `first`, and no connection, over an empty policy.
    pub fn new(
        alloc: Global,
        table: Sequence<ResourceRow>,
        policy: P,
        first: u64,
    ) -> Result<Core<P>, Memory>
        requires first { first ≤ last_first }
        requires table { fits table ≡ true }
        requires empty { P.content policy ≡ no_objects }
        ensures stands { IfOk result (λ core. Refines core (opening table first)) }
        ensures opened { IfOk result (λ core. HasOpened core first) }
        ensures unopened { IfOk result (λ core. core.next_id ≡ 0) }
    {
        let mut policy = policy;
        let mut tracker = Tracker::new(alloc);
        let store = open_objects(alloc, table, &mut policy, &mut tracker, first)?;
        Ok(Core {
            alloc,
            store,
            policy,
            tracker,
            connections: BTreeMap::new(alloc),
            next_id: 0,
            rechecks: false,
        })
    }

    /// A machine without objects and connections, over an empty policy, whose revisions begin after `first`.
    pub fn without_objects(
        alloc: Global,
        table: Sequence<ResourceRow>,
        policy: P,
        first: u64,
    ) -> Result<Core<P>, Memory>
        requires first { first ≤ last_first }
        requires table { fits table ≡ true }
        requires empty { P.content policy ≡ no_objects }
        ensures stands { IfOk result (λ core. Refines core (empty table first)) }
        ensures unopened { IfOk result (λ core. core.next_id ≡ 0) }
    {
        Ok(Core {
            alloc,
            store: Store::new(alloc, table, first)?,
            policy,
            tracker: Tracker::new(alloc),
            connections: BTreeMap::new(alloc),
            next_id: 0,
            rechecks: false,
        })
    }

    /// Creates an object with which the server begins, before the first connection is opened: without authorization and
    /// the check against escalation, at the place that its apiVersion, kind and namespace name. Answers what the
    /// creation changed in the policy.
    ///
    /// # Errors
    /// `UnknownKind` if no such apiVersion and kind are served, `Object` if it is no JSON object, has a fault, or
    /// names no namespace though its kind has one, `Store` if its namespace does not exist, its place is taken, or
    /// no revision is left. The latter two have the refusal that a server answers to the creation. After an error
    /// nothing has changed.
    pub fn load(&mut self, text: &[u8]) -> Result<PolicyStep, LoadError>
        ensures { Loads self.old self.new text.now result }
    {
        load_object(
            self.alloc,
            &mut self.policy,
            &mut self.tracker,
            &mut self.store,
            text,
        )
    }

    /// Sets whether the rights of each watch are rechecked at each of its events: if the current roles and bindings
    /// do not allow it any more, the watch ends with that event. To be called before the first connection is opened;
    /// off at first. Allocates nothing.
    pub fn recheck_watches(&mut self, on: bool)
        requires { self.old.next_id ≡ 0 }
        ensures switched { self.new ≡ record self.old { rechecks = on } }
        ensures stands { (m : Machine) → Refines self.old m → Refines self.new (with_rechecks on m) }
    {
        self.rechecks = on;
    }

    /// The roles and bindings among the objects, as a policy that decides. Allocates nothing.
    pub fn policy(&self) -> &P
        ensures { P.content result.now ≡ self.now.policy }
    {
        &self.policy
    }

    /// The roles and bindings among the objects, as a policy that decides; all else is dropped. Allocates nothing.
    pub fn into_policy(self) -> P
        ensures { P.content result ≡ self.policy }
    {
        let Core {
            alloc: _,
            store: _,
            policy,
            tracker: _,
            connections: _,
            next_id: _,
            rechecks: _,
        } = self;
        policy
    }

    /// Whether no cluster role may differ from its union, so that a turn does nothing. Allocates nothing.
    pub fn is_quiet(&self) -> bool
        ensures { IsTrue result → Turns self.now self.now (Ok None) }
    {
        !self.tracker.has_marks()
    }

    /// The current revision, which is that of the last change. Allocates nothing.
    pub fn revision(&self) -> u64
        ensures { result ≡ self.now.store.revision }
    {
        self.store.revision()
    }

    /// The allocator that the machine grows by.
    pub fn allocator(&self) -> Global {
        self.alloc
    }

    /// Opens a connection for an identity.
    ///
    /// # Errors
    /// `TooMany` if 256 connections are open or the numbers are used up, before anything is allocated.
    pub fn open(&mut self, identity: Identity) -> Result<ConnId, OpenError>
        ensures { Opens self.old self.new identity result }
    {
        if !self.has_room() {
            return Err(OpenError::TooMany);
        }
        let id = self.next_id;
        let connection = Connection {
            identity,
            inbox: Inbox::new(self.alloc),
            watching: None,
        };
        match self.connections.insert(id, connection) {
            Ok(replaced) => drop(replaced),
            Err(_refused) => return Err(OpenError::Memory),
        }
        self.next_id += 1;
        Ok(ConnId(id))
    }

    /// Whether one connection more may be opened.
    pub(crate) fn has_room(&self) -> bool
        ensures room { result ≡ (nat_lt (length self.now.connections) OPEN_CONNECTIONS && nat_le self.now.next_id LAST_CONNECTION) }
        ensures low { IsTrue result → self.now.next_id ≤ LAST_CONNECTION }
    {
        self.connections.len() < OPEN_CONNECTIONS && self.next_id <= LAST_CONNECTION
    }

    /// Takes bytes in on a connection.
    ///
    /// # Errors
    /// `Ended` if no such connection is open, else `Full` if the bytes not yet served would be more than
    /// 2,097,152; both before anything is allocated. After an error nothing has changed.
    pub fn feed(&mut self, conn: ConnId, piece: &[u8]) -> Result<(), FeedError>
        ensures { TakesIn self.old self.new conn piece.now result }
    {
        feed_at(&mut self.connections, conn.0, piece)
    }

    /// Answers the next complete request of a connection, or the first fault in its bytes; none if there is neither,
    /// and none while a watch of the connection runs.
    pub fn serve(&mut self, conn: ConnId) -> Result<Option<Output>, Memory>
        ensures { Sends self.old self.new (Event.Serve conn) result }
    {
        let Some(connection) = self.connections.get(&conn.0) else {
            return Ok(None);
        };
        if connection.watching.is_some() {
            return Ok(None);
        }
        let Some(item) = connection.inbox.next()? else {
            return Ok(None);
        };
        let Prepared {
            reply,
            write,
            watch,
        } = answer(
            self.alloc,
            &self.policy,
            &mut self.store,
            &connection.identity,
            &item,
        )?;
        let changes = make_write(
            self.alloc,
            &mut self.policy,
            &mut self.tracker,
            &mut self.store,
            write,
        )?;
        finish_request(&mut self.connections, conn.0, &item, watch);
        close_if(&mut self.connections, conn.0, reply.close);
        Ok(Some(Output {
            bytes: reply.bytes,
            close: reply.close,
            policy_changes: changes,
        }))
    }

    /// Shows the next event of a connection's watch; none if it has no watch, or if there is nothing to show. A watch
    /// that cannot go on, or whose rights were taken away if they are rechecked, ends with the event, and the
    /// connection with it, if its request asked for this.
    pub fn pump(&mut self, conn: ConnId) -> Result<Option<Output>, Memory>
        ensures { Sends self.old self.new (Event.Pump conn) result }
    {
        let Some(connection) = self.connections.get(&conn.0) else {
            return Ok(None);
        };
        let Some(watching) = &connection.watching else {
            return Ok(None);
        };
        let watching = watching.get();
        let Next { event, place } = watching.watch.next(&self.store);
        let event = recheck(&self.policy, self.rechecks, watching, event);
        let Some(event) = event else {
            advance_watch(&mut self.connections, conn.0, After::Watches, place);
            return Ok(None);
        };
        let reply = event_reply(self.alloc, &self.store, watching, &event)?;
        advance_watch(&mut self.connections, conn.0, reply.after, place);
        Ok(Some(Output {
            bytes: reply.bytes,
            close: closes(reply.after),
            policy_changes: PolicyStep::nothing(self.alloc),
        }))
    }

    /// Moves the watch of a connection on if it has nothing to show, and returns whether it did. Allocates nothing.
    pub fn pass(&mut self, conn: ConnId) -> bool
        ensures passed { result ≡ true → Makes self.old self.new (Event.Pump conn) Answer.Nothing }
        ensures same { result ≡ false → self.new ≡ self.old }
    {
        let Some(connection) = self.connections.get(&conn.0) else {
            return false;
        };
        let Some(watching) = &connection.watching else {
            return false;
        };
        let watching = watching.get();
        let Next { event, place } = watching.watch.next(&self.store);
        let event = recheck(&self.policy, self.rechecks, watching, event);
        match event {
            Some(_due) => false,
            None => {
                advance_watch(&mut self.connections, conn.0, After::Watches, place);
                true
            }
        }
    }

    /// Whether the next request of a connection has a whole head and is a DELETE. Allocates nothing.
    pub fn is_deletion(&self, conn: ConnId) -> bool {
        match self.connections.get(&conn.0) {
            Some(connection) => connection.inbox.is_deletion(),
            None => false,
        }
    }

    /// The fingerprint of the watch that runs on a connection, if one does. Allocates nothing.
    pub fn fingerprint(&self, conn: ConnId) -> Option<u64>
        ensures { (m : Machine) → Refines self.now m → result ≡ fingerprint_on (link_at conn.0 m) }
    {
        let Some(connection) = self.connections.get(&conn.0) else {
            return None;
        };
        match &connection.watching {
            Some(watching) => Some(fingerprint_of_scope(watching.get().watch.scope())),
            None => None,
        }
    }

    /// The fingerprints of the watches that the changes after a revision may concern. None if any may be concerned: if
    /// a role or a binding has changed, by which rights may have gone, if more than 64 objects have, and where some
    /// changes may be kept no longer, or there is no memory for the list.
    pub fn fingerprints_after(&self, revision: u64) -> Option<Vec<u64>>
        ensures { IfSome result (λ v. (m : Machine) → Refines self.now m → (id : ℕ) → is_concerned m id revision ≡ true → is_among v.items (fingerprint_on (link_at id m)) ≡ true) }
    {
        match self.store.changes_after(revision) {
            Ok(changes) => fingerprints_of(self.alloc, &changes),
            Err(_too_old) => None,
        }
    }

    /// Makes the controller's next write: the aggregated cluster role of least name whose rules are not its union gets
    /// the union as its rules. None if there is no such role, or no revision is left.
    pub fn turn(&mut self) -> Result<Option<Turned>, Memory>
        ensures { Turns self.old self.new result }
    {
        let Some(turn) = self.tracker.next_turn(&self.store)? else {
            return Ok(None);
        };
        make_turn(
            self.alloc,
            &mut self.policy,
            &mut self.tracker,
            &mut self.store,
            turn,
        )
    }

    /// Closes a connection; without effect on one that is not open.
    pub fn close(&mut self, conn: ConnId)
        ensures { Makes self.old self.new (Event.Close conn) Answer.Done }
    {
        drop(self.connections.remove(&conn.0));
    }
}

/// Whether the connection ends.
fn closes(after: After) -> bool
    ensures { result ≡ is_last after }
{
    match after {
        After::Closes => true,
        After::Watches | After::WatchEnded => false,
    }
}

/// Takes out the connection of a number, if it is to be closed.
fn close_if(connections: &mut BTreeMap<u64, Connection>, id: u64, close: bool)
    ensures { connections.new.entries ≡ (if close then remove_entry (is_at (nat_cmp id)) connections.old.entries else connections.old.entries) }
{
    if close {
        close_at(connections, id);
    }
}
