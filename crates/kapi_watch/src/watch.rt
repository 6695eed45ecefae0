//! Watches of a store's changes.
ghost use Rattle.std.specs.Prelude.{◌≡◌, true, false, List, IfOk, None, map, option_map, unwrap_or};
ghost use Rattle.kapi_store.specs.Stored.{stored_tree};
ghost use Rattle.kapi_text.specs.ResultIs.{ResultIs};
ghost use Rattle.kapi_store.specs.Plain.{Plain, PlainChange, RefinesPlain, changes_after, plain_of};
ghost use Rattle.kapi_watch.specs.Shown.{event_of};
ghost use Rattle.kapi_watch.specs.Private.Looked.{looked, first_in, shown_in};
ghost use Rattle.kapi_watch.specs.declared.event.Event.TheVariants as EventValue;

use crate::error::WatchError;
use crate::event::Event;
use crate::scope::{ShownChange, WatchScope};
use kapi_model::{ResourceRow, Selector};
use kapi_store::{Listed, Shared, Store, TooOld};
use kapi_text::{Memory, Sequence};
use std::alloc::Global;

/// A watch of a store: which objects it selects, which ones it shows first, and its place.
#[derive(Drop)]
pub struct Watch {
    scope: WatchScope,
    first: Sequence<Shared>,
    /// How many of the first objects were shown.
    told: usize,
    /// The revision up to which all changes were shown.
    position: u64,
    /// The watch was stopped, and shows nothing any more.
    stopped: bool,
}

/// The place of a watch: how many of the first objects it has shown, and the revision up to which it has shown changes.
#[derive(Clone, Copy)]
pub struct Cursor {
    told: usize,
    position: u64,
}

/// What a watch shows next, if there is anything, and the place that it has then.
#[derive(Clone, Copy)]
pub struct Next<'a> {
    pub event: Option<Event<'a>>,
    pub place: Cursor,
}

/// The objects of a list, each shared once more.
fn objects_of(alloc: Global, listed: &[Listed<'_>]) -> Result<Sequence<Shared>, Memory>
    ensures { IfOk result (λ os. map stored_tree os ≡ map (λ l. stored_tree l.object.now) listed.now) }
{
    let mut objects = Vec::with_capacity(alloc, listed.len())?;
    for one in listed {
        objects.push(one.object.share()?)?;
    }
    Ok(Sequence::new(objects))
}

/// The event of what was found; if changes are gone, the end of the watch.
fn event_in<'a>(found: &Result<Option<ShownChange<'a>>, TooOld>) -> Option<Event<'a>>
    ensures { option_map event_of result ≡ shown_in (looked found.now) }
{
    match found {
        Ok(Some(found)) => Some(found.event),
        Ok(None) => None,
        Err(_too_old) => Some(Event::Expired),
    }
}

impl Watch {
    ghost use Rattle.kapi_watch.specs.Watches.{PlainWatch, fault_of, pumped, after_pump, startable, started, started_at, started_now, watch_from};
    ghost use Rattle.kapi_watch.specs.Private.Looked.{position_after};
    ghost use Rattle.kapi_watch.specs.Running.{IsFresh, RefinesWatch, at_place, watch_data};

    /// A watch of the objects of a resource that are in the namespace and of the name, or in all and of any if the
    /// text is empty, and whose labels the selector matches.
    ///
    /// Without a revision, or with 0, it shows the stored objects first and then each change after them; with
    /// another revision each change after it. Refused where the revision lies above the current one (`TooLarge`), and
    /// where some of the changes may be kept no longer (`TooOld`), both before anything is allocated.
    pub fn start(
        alloc: Global,
        store: &Store,
        resource: &ResourceRow,
        namespace: &str,
        selector: &Selector,
        name: &str,
        revision: Option<u64>,
    ) -> Result<Watch, WatchError>
        ensures gives { ResultIs fault_of watch_data result (started (plain_of store.now) (record { row = resource.now; namespace = namespace.now; selector = selector.now; name = name.now }) (unwrap_or revision 0)) }
        ensures fresh { IfOk result (IsFresh (plain_of store.now)) }
    {
        let revision = revision.unwrap_or(0);
        Watch::check(store, revision)?;
        let scope = WatchScope::new(alloc, resource, namespace, selector, name)?;
        Ok(Watch::begin(alloc, store, scope, revision)?)
    }

    /// Whether a watch can start from a revision on: refused where it lies above the current one (`TooLarge`), and
    /// where some of the changes after it may be kept no longer (`TooOld`). 0 asks for the stored objects. Allocates
    /// nothing.
    #[tactic(auto, unfolding(crate::specs::Watches::startable))]
    pub fn check(store: &Store, revision: u64) -> Result<(), WatchError>
        ensures { ResultIs fault_of (λ u. u) result (startable (plain_of store.now) revision) }
    {
        if revision == 0 {
            return Ok(());
        }
        if revision > store.revision() {
            return Err(WatchError::TooLarge);
        }
        if revision < store.window_start() {
            return Err(WatchError::TooOld);
        }
        Ok(())
    }

    /// The watch from a revision on that `check` lets pass.
    #[tactic(auto, unfolding(crate::specs::Watches::watch_from))]
    pub fn begin(
        alloc: Global,
        store: &Store,
        scope: WatchScope,
        revision: u64,
    ) -> Result<Watch, Memory>
        requires { startable (plain_of store.now) revision ≡ Ok tt }
        ensures gives { IfOk result (λ r. watch_data r ≡ watch_from (plain_of store.now) scope revision) }
        ensures fresh { IfOk result (IsFresh (plain_of store.now)) }
    {
        if revision == 0 {
            Watch::from_now(alloc, store, scope)
        } else {
            Ok(Watch::from_revision(alloc, scope, revision))
        }
    }

    /// A watch of what is listed now, and of each change after it.
    fn from_now(alloc: Global, store: &Store, scope: WatchScope) -> Result<Watch, Memory>
        ensures gives { IfOk result (λ r. watch_data r ≡ started_now (plain_of store.now) scope) }
        ensures told { IfOk result (λ r. r.told ≡ 0) }
        ensures runs { IfOk result (λ r. r.stopped ≡ false) }
    {
        let (namespace, name) = (scope.namespace.as_str(), scope.name.as_str());
        let listed = store.list(&scope.row, namespace, scope.selector.get(), name)?;
        let first = objects_of(alloc, &listed)?;
        Ok(Watch {
            scope,
            first,
            told: 0,
            position: store.revision(),
            stopped: false,
        })
    }

    /// A watch of each change after a revision.
    fn from_revision(alloc: Global, scope: WatchScope, revision: u64) -> Watch
        ensures gives { watch_data result ≡ started_at scope revision }
        ensures told { result.told ≡ 0 }
        ensures runs { result.stopped ≡ false }
    {
        Watch {
            scope,
            first: Sequence::new(Vec::new(alloc)),
            told: 0,
            position: revision,
            stopped: false,
        }
    }

    /// The scope of the watch.
    pub fn scope(&self) -> &WatchScope
        ensures { result.now ≡ self.now.scope }
    {
        &self.scope
    }

    /// The revision of the watch's place.
    pub fn position(&self) -> u64
        ensures { (history : List PlainChange) (s : Plain) (w : PlainWatch) → RefinesWatch self.now history s w → result ≡ w.position }
    {
        self.position
    }

    /// What the watch shows next, if there is anything, and the place that it has then: at the revision of that event,
    /// or at the current one if there is nothing to show; a watch that is at its end keeps its place. Allocates
    /// nothing, and changes nothing: `shown` moves the watch on.
    ///
    /// The objects that were there at its start come first. Then, if changes after its position may be kept no
    /// longer, comes the end of the watch; else the first event that these changes show. Each change is examined once,
    /// and nothing else of the store. A watch that was stopped shows nothing.
    pub fn next<'a>(&'a self, store: &'a Store) -> Next<'a>
        ensures event { (history : List PlainChange) (s : Plain) (w : PlainWatch) → RefinesPlain store.now history s
            → RefinesWatch self.now history s w → option_map event_of result.event ≡ pumped history s w }
        ensures place { (history : List PlainChange) (s : Plain) (w : PlainWatch) → RefinesPlain store.now history s
            → RefinesWatch self.now history s w → RefinesWatch (at_place self.now result.place) history s (after_pump history s w) }
        ensures stopped { self.now.stopped ≡ true → result.event ≡ None }
    {
        if self.stopped {
            let place = Cursor {
                told: self.told,
                position: self.position,
            };
            return Next { event: None, place };
        }
        self.next_of_running(store)
    }

    /// What a running watch shows next, and its place after that.
    fn next_of_running<'a>(&'a self, store: &'a Store) -> Next<'a>
        ensures event { (history : List PlainChange) (s : Plain) (w : PlainWatch) → RefinesPlain store.now history s
            → RefinesWatch self.now history s w → option_map event_of result.event ≡ pumped history s w }
        ensures place { (history : List PlainChange) (s : Plain) (w : PlainWatch) → RefinesPlain store.now history s
            → RefinesWatch self.now history s w → RefinesWatch (at_place self.now result.place) history s (after_pump history s w) }
    {
        if let Some(object) = self.first.as_slice().get(self.told) {
            let place = Cursor {
                told: self.told + 1,
                position: self.position,
            };
            return Next {
                event: Some(Event::Added(object.get())),
                place,
            };
        }
        let found = self.look(store);
        let place = Cursor {
            told: self.told,
            position: self.position_past(store, &found),
        };
        Next {
            event: event_in(&found),
            place,
        }
    }

    /// What the changes after the position show first; refused if some of them may be kept no longer.
    fn look<'a>(&self, store: &'a Store) -> Result<Option<ShownChange<'a>>, TooOld>
        ensures { (history : List PlainChange) (s : Plain) → RefinesPlain store.now history s
            → looked result ≡ first_in self.now.scope (changes_after history s self.now.position) }
    {
        let changes = store.changes_after(self.position)?;
        Ok(self.scope.first_of(&changes))
    }

    /// The revision of the watch's place when it has shown what was found.
    fn position_past(&self, store: &Store, found: &Result<Option<ShownChange<'_>>, TooOld>) -> u64
        ensures { result ≡ position_after (plain_of store.now) self.now.position (looked found.now) }
    {
        match found {
            Ok(Some(found)) => found.revision,
            Ok(None) => store.revision(),
            Err(_too_old) => self.position,
        }
    }

    /// Moves the watch to the place that `next` returned.
    pub fn shown(&mut self, place: Cursor)
        ensures { self.new ≡ at_place self.old place }
    {
        self.told = place.told;
        self.position = place.position;
    }

    /// Stops the watch, as its identity may not watch any more: `next` shows nothing from now on. Allocates nothing.
    pub fn stop(&mut self) -> Event<'static>
        ensures told { result ≡ EventValue.Refused }
        ensures stops { self.new ≡ record self.old { stopped = true } }
    {
        self.stopped = true;
        Event::Refused
    }
}
