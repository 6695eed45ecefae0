use crate::change::{Change, Shared};
use crate::error::{StoreError, TooOld};
use crate::key::Key;
use crate::listing::{Listed, Selection};
use crate::namespaces::{any_stands_in, forget_if_removed, is_known, is_namespace, keep_namespace};
use crate::ready::Ready;
use crate::rows::{Rows, is_namespaced};
use crate::slots::{Hidden, find, place, reserve_slot};
use crate::stored::StoredObject;
use crate::uid_and_version::{admitted, created, replacing};
use crate::window::{Changes, WINDOW, Window};
use kapi_model::{ResourceRow, Selector};
use kapi_object::{GivenText, Object};
use kapi_text::{Memory, Sequence, Text};
use std::alloc::Global;
use std::collections::BTreeMap;
use std::marker::Model;

/// The largest revision, 2^48 - 1.
pub const LAST_REVISION: u64 = 281_474_976_710_655;

/// The objects by their keys, one revision counter over all writes, and the last changes.
pub struct Store {
    alloc: Global,
    table: Rows,
    slots: BTreeMap<Key, Shared>,
    /// The slot whose object is still to be created.
    hidden: Option<Hidden>,
    /// The last namespace in which an object was created, while it surely exists: it need not be looked up again.
    known: Option<Text>,
    first: u64,
    revision: u64,
    window: Window,
}

impl Drop for Store {
    fn drop(self) {
        let Store {
            alloc: _,
            table: _,
            slots: _,
            hidden: _,
            known: _,
            first: _,
            revision: _,
            window: _,
        } = self;
    }
}

impl Model for Store {
    ghost use Rattle.std.specs.Coded.{codes};
    ghost use Rattle.kapi_store.specs.contracts.stored.StoredObject as held;
    ghost use Rattle.kapi_store.specs.contracts.change.Change as changed;
    ghost use Rattle.kapi_store.specs.State.{State, IsStore};
    ghost use Rattle.std.specs.List.Sorted.{IsStrictlySortedBy};
    ghost use Rattle.std.specs.Map.{keys_of};
    ghost use Rattle.kapi_store.specs.Keys.{key_cmp};

    ghost Value = { State };

    ghost coded = { Prim.hlevel (codes, held.the_row.coded, changed.the_row.coded) };

    ghost use Rattle.kapi_store.specs.View.{state_of};
    ghost use Rattle.kapi_store.specs.Plain.{plain_of};
    ghost use Rattle.kapi_store.specs.Private.Existing.{Exists};
    ghost use Rattle.kapi_store.specs.Private.Hidden.{HoldsHidden};

    ghost view = { state_of };

    ghost invariant = { λ s. IsStore (state_of s) × Exists s.known (plain_of (state_of s)) × IsStrictlySortedBy key_cmp (keys_of s.slots.entries) × HoldsHidden s.hidden s.slots.entries };
}

impl Store {
    ghost use Rattle.std.specs.Prelude.{◌≡◌, ◌+◌, ◌-◌, ◌≤◌, ◌<◌, max, nat_lt, ◌↔◌, List, [], ◌∷◌, ◌++◌, map, length, Some, IfOk, OnOk, IsErr, option_copied, option_map};
    ghost use Rattle.std.specs.List.{filter, list_all, list_any, IsDistinct};
    ghost use Rattle.std.specs.Map.{lookup, keys_of};
    ghost use Rattle.serde_json.specs.Data.{Data};
    ghost use Rattle.kapi_text.specs.ResultIs.{ResultIs};
    ghost use Rattle.kapi_object.specs.Given.{given_of};
    ghost use Rattle.kapi_object.specs.Object.{tree_of};
    ghost use Rattle.kapi_store.specs.Keys.{is_key};
    ghost use Rattle.kapi_store.specs.Changes.{placed, placed_all, left_by, last_of};
    ghost use Rattle.kapi_store.specs.State.{objects as objects_of, Same, Fits, IsStore};
    ghost use Rattle.kapi_store.specs.Lent.{changes_of};
    ghost use Rattle.kapi_store.specs.Faults.{fault_of};
    ghost use Rattle.kapi_store.specs.UidAndVersion.{with_stamps_of as with_stamps};
    ghost use Rattle.kapi_store.specs.Stored.{stored_tree};
    ghost use Rattle.kapi_store.specs.Plain.{Plain, PlainChange, RefinesPlain, plain_of, plain_change, has_object as has_object_at, has_namespace as has_namespace_of, free_place, revisions_left, creation, creation_in_place, replacement, replacement_in_place, removal, opened, written, trees};
    ghost use Rattle.kapi_store.specs.Plain.{changes_after as changes_after_in, replaceable as replaceable_at, holds_objects as holds_objects_in, is_full_namespace, removable, replaced, window_start as window_start_of};
    ghost use Rattle.kapi_store.specs.Limits.{last_revision, window_limit};
    ghost use Rattle.kapi_store.specs.Listing.{listed_objects, listed_trees, shown};
    ghost use Rattle.kapi_store.specs.Rows.{is_of};
    ghost use Rattle.std.specs.Prelude.{find as find_row};

    /// A store with no object and no change, whose counter starts at `first`; it has the memory for all changes that
    /// it will keep.
    pub fn new(alloc: Global, table: Sequence<ResourceRow>, first: u64) -> Result<Store, Memory>
        requires { first ≤ last_revision }
        ensures table { IfOk result (λ s. s.table ≡ table) }
        ensures objects { IfOk result (λ s. objects_of s ≡ []) }
        ensures first { IfOk result (λ s. s.first ≡ first) }
        ensures revision { IfOk result (λ s. s.revision ≡ first) }
        ensures window { IfOk result (λ s. s.window ≡ []) }
        ensures stands { IfOk result (λ s. RefinesPlain s [] (opened table first)) }
    {
        Ok(Store {
            alloc,
            table: Rows::new(alloc, table)?,
            slots: BTreeMap::new(alloc),
            hidden: None,
            known: None,
            first,
            revision: first,
            window: Window::new(alloc)?,
        })
    }

    /// The resource types that are served.
    pub fn table(&self) -> &[ResourceRow]
        ensures { result.now ≡ self.now.table }
    {
        self.table.as_slice()
    }

    /// The resource type of a group, a version and a name, if it is served. Allocates nothing.
    pub fn row(&self, group: &Text, version: &Text, plural: &Text) -> Option<&ResourceRow>
        ensures { option_copied result ≡ find_row (is_of group.now version.now plural.now) self.now.table }
    {
        self.table.find(group, version, plural)
    }

    /// The object at the key, if any. Allocates nothing.
    pub fn get(&self, key: &Key) -> Option<&StoredObject>
        ensures object { option_copied result ≡ lookup (is_key key.now) (objects_of self.now) }
        ensures tree { option_map (λ o. stored_tree o.now) result ≡ lookup (is_key key.now) (plain_of self.now).objects }
    {
        match find(&self.slots, &self.hidden, key) {
            Some(object) => Some(object.get()),
            None => None,
        }
    }

    /// The objects of a resource that are in the namespace and of the name, or in all and of any if the text is
    /// empty, and whose labels the selector matches (Kubernetes, 'Labels and Selectors'), in the order of their keys.
    ///
    /// The call reads the objects between the first and the last key that may be listed, and no others. For a resource
    /// that is cluster-scoped the caller passes an empty namespace: no object of it is in one. Each key is listed once.
    pub fn list<'a>(
        &'a self,
        resource: &ResourceRow,
        namespace: &str,
        selector: &Selector,
        name: &str,
    ) -> Result<Vec<Listed<'a>>, Memory>
        ensures objects { IfOk result (λ v. map shown v.items ≡ listed_objects resource.now namespace.now selector.now name.now (objects_of self.now)) }
        ensures distinct { IfOk result (λ v. IsDistinct is_key (keys_of (map shown v.items))) }
        ensures trees { IfOk result (λ v. trees (map shown v.items) ≡ listed_trees resource.now namespace.now selector.now name.now (plain_of self.now).objects) }
    {
        let selection = Selection {
            row: resource,
            namespace,
            selector,
            name,
        };
        selection.list_in(self.alloc, &self.slots, &self.hidden)
    }

    /// The revision of the last change, or the first one if there is none. Allocates nothing.
    pub fn revision(&self) -> u64
        ensures number { result ≡ self.now.revision }
        ensures store { IsStore self.now }
    {
        self.revision
    }

    /// The lowest revision after which all changes are kept: the first one, or the current one less `WINDOW`.
    pub fn window_start(&self) -> u64
        ensures { result ≡ window_start_of (plain_of self.now) }
    {
        self.first.max(self.revision.saturating_sub(WINDOW as u64))
    }

    /// The changes after a revision, the oldest first; none if some of them may be kept no longer: if the
    /// revision is below the first one, or below the current one less `WINDOW`. Allocates nothing.
    pub fn changes_after(&self, revision: u64) -> Result<Changes<'_>, TooOld>
        ensures too_old { IsErr result ↔ (revision < max (self.now.revision - window_limit) self.now.first) }
        ensures changes { IfOk result (λ c. changes_of c ≡ filter (λ d. nat_lt revision d.revision) self.now.window) }
        ensures all { (history : List PlainChange) (p : Plain) → RefinesPlain self.now history p
            → ResultIs (λ _. Some tt) (λ c. map plain_change (changes_of c)) result (changes_after_in history p revision) }
    {
        if revision < self.first {
            return Err(TooOld);
        }
        let count = self.revision.saturating_sub(revision);
        if count > WINDOW as u64 {
            return Err(TooOld);
        }
        Ok(self.window.last(count as usize))
    }

    /// Whether there is an object at the key. Allocates nothing.
    pub fn has_object(&self, key: &Key) -> bool
        ensures { result ≡ has_object_at key.now (plain_of self.now) }
    {
        self.get(key).is_some()
    }

    /// Whether the key's namespace exists, if it is in one.
    #[tactic(auto, unfolding(crate::specs::Plain::has_namespace))]
    pub fn has_namespace(&self, key: &Key) -> Result<bool, Memory>
        ensures { IfOk result (λ b. b ≡ has_namespace_of key.now (plain_of self.now)) }
    {
        if is_known(&self.known, &key.namespace) || !is_namespaced(self.table(), key) {
            return Ok(true);
        }
        Ok(self.has_object(&Key::of_namespace(self.alloc, &key.namespace)?))
    }

    /// Checks that an object can be created at the key; refused, in this order, if its namespace is missing
    /// (`NoNamespace`) and where an object is at the key (`Exists`).
    #[tactic(auto, unfolding(crate::specs::Plain::free_place))]
    pub fn check_place(&self, key: &Key) -> Result<(), StoreError>
        ensures { ResultIs fault_of (λ u. u) result (free_place (plain_of self.now) key.now) }
    {
        if !self.has_namespace(key)? {
            return Err(StoreError::NoNamespace);
        }
        if self.has_object(key) {
            return Err(StoreError::Exists);
        }
        Ok(())
    }

    /// Checks that so many revisions are left (`RevisionsUsedUp`). Allocates nothing.
    #[tactic(auto, unfolding(crate::specs::Plain::revisions_left))]
    pub fn check_revisions(&self, count: u64) -> Result<(), StoreError>
        ensures gives { ResultIs fault_of (λ u. u) result (revisions_left (plain_of self.now) count) }
        ensures left { OnOk result (self.now.revision + count ≤ last_revision) }
    {
        if count > LAST_REVISION - self.revision {
            return Err(StoreError::RevisionsUsedUp);
        }
        Ok(())
    }

    /// The object at the key, which a write with this given version may replace; refused, in this order, if there
    /// is none (`Missing`) and where the version is no text, or a text that is neither empty nor the current version
    /// (`Conflict`).
    pub fn replaceable(&self, key: &Key, given: &GivenText) -> Result<&Shared, StoreError>
        ensures gives { ResultIs fault_of (λ o. stored_tree o.now) result (replaceable_at (plain_of self.now) key.now given.now) }
        ensures found { IfOk result (λ o. lookup (is_key key.now) (plain_of self.now).objects ≡ Some (stored_tree o.now)) }
    {
        match find(&self.slots, &self.hidden, key) {
            Some(object) => admitted(self.alloc, object, given),
            None => Err(StoreError::Missing),
        }
    }

    /// Prepares the creation of an object: makes every allocation that it needs, and leaves objects, revision and
    /// changes.
    ///
    /// The object gets the uid and the resourceVersion of the next revision. Refused, in this order, if its
    /// namespace is missing (`NoNamespace`), if an object is at the key (`Exists`), and where no revision
    /// is left (`RevisionsUsedUp`).
    pub fn create(&mut self, key: Key, object: Object) -> Result<Ready, StoreError>
        ensures gives { ResultIs fault_of (map plain_change) result (creation (plain_of self.old) key (tree_of object)) }
        ensures same { Same self.old self.new }
        ensures fits { IfOk result (Fits self.new) }
    {
        self.check_place(&key)?;
        self.create_in_place(key, object)
    }

    /// Prepares the creation of an object at a place that `check_place` found free: it is not looked up again.
    pub fn create_in_place(&mut self, key: Key, object: Object) -> Result<Ready, StoreError>
        requires { free_place (plain_of self.old) key ≡ Ok tt }
        ensures gives { ResultIs fault_of (map plain_change) result (creation_in_place (plain_of self.old) key (tree_of object)) }
        ensures same { Same self.old self.new }
        ensures fits { IfOk result (Fits self.new) }
    {
        self.check_revisions(1)?;
        let revision = self.revision + 1;
        let written = created(self.alloc, object, revision)?;
        let (ready, shared) = Ready::creation(self.alloc, revision, &key, written)?;
        keep_namespace(self.alloc, self.table.as_slice(), &mut self.known, &key)?;
        reserve_slot(self.alloc, &mut self.slots, &mut self.hidden, key, shared)?;
        Ok(ready)
    }

    /// Prepares the replacement of the object at the key: makes every allocation that it needs, and changes nothing.
    ///
    /// The new object gets the old one's uid and the next revision as its resourceVersion. If it is the old object
    /// but for uid and resourceVersion, nothing would change: the write then has no changes and takes no revision.
    /// Refused, in this order, if no object is at the key (`Missing`), if the object's own resourceVersion does
    /// not admit the write (`Conflict`), and where no revision is left for a change (`RevisionsUsedUp`).
    pub fn replace(&self, key: Key, object: Object) -> Result<Ready, StoreError>
        ensures gives { ResultIs fault_of (map plain_change) result (replacement (plain_of self.now) key (tree_of object)) }
        ensures unchanged { IfOk result (λ r. (old : Data) → lookup (is_key key) (plain_of self.now).objects ≡ Some old
            → (r ≡ []) ↔ (with_stamps old (tree_of object) ≡ old)) }
        ensures fits { IfOk result (Fits self.now) }
    {
        let old = self.replaceable_by(&key, &object)?;
        self.replace_old(key, object, old)
    }

    /// Prepares the replacement of an object that `replaceable` found: it is not looked up again, and its version is not
    /// looked at.
    pub fn replace_in_place(
        &self,
        key: Key,
        object: Object,
        old: &Shared,
    ) -> Result<Ready, StoreError>
        requires { lookup (is_key key) (plain_of self.now).objects ≡ Some (stored_tree old.now) }
        ensures gives { ResultIs fault_of (map plain_change) result (replacement_in_place (plain_of self.now) key (tree_of object)) }
        ensures unchanged { IfOk result (λ r. (r ≡ []) ↔ (with_stamps (stored_tree old.now) (tree_of object) ≡ stored_tree old.now)) }
        ensures fits { IfOk result (Fits self.now) }
    {
        self.replace_old(key, object, old)
    }

    /// The object at the key, which this one may replace.
    fn replaceable_by(&self, key: &Key, object: &Object) -> Result<&Shared, StoreError>
        ensures gives { ResultIs fault_of (λ o. stored_tree o.now) result (replaceable_at (plain_of self.now) key.now (given_of (tree_of object.now)).resource_version) }
        ensures found { IfOk result (λ o. lookup (is_key key.now) (plain_of self.now).objects ≡ Some (stored_tree o.now)) }
    {
        let given = object.given(self.alloc)?;
        self.replaceable(key, &given.resource_version)
    }

    /// Prepares the replacement of a stored object.
    fn replace_old(&self, key: Key, object: Object, old: &Shared) -> Result<Ready, StoreError>
        requires { lookup (is_key key) (plain_of self.now).objects ≡ Some (stored_tree old.now) }
        ensures gives { ResultIs fault_of (map plain_change) result (replaced (plain_of self.now) key (tree_of object) (stored_tree old.now)) }
        ensures unchanged { IfOk result (λ r. (r ≡ []) ↔ (with_stamps (stored_tree old.now) (tree_of object) ≡ stored_tree old.now)) }
        ensures fits { IfOk result (Fits self.now) }
    {
        let revision = self.revision + 1;
        let changed = replacing(self.alloc, object, old, revision)?;
        let Some(written) = changed else {
            return Ok(Ready::nothing(self.alloc));
        };
        self.check_revisions(1)?;
        Ok(Ready::replacement(self.alloc, revision, key, old, written)?)
    }

    /// Whether the namespace holds an object of a namespaced resource type. The call reads the first object of each
    /// such resource type there, and no others.
    fn holds_objects(&self, namespace: &Text) -> Result<bool, Memory>
        ensures { IfOk result (λ b. b ≡ holds_objects_in (plain_of self.now) namespace.now) }
    {
        any_stands_in(
            self.alloc,
            &self.slots,
            &self.hidden,
            self.table.as_slice(),
            namespace,
        )
    }

    /// Whether the key is of a Namespace object, and that namespace holds an object.
    fn is_full(&self, key: &Key) -> Result<bool, Memory>
        ensures { IfOk result (λ b. b ≡ is_full_namespace (plain_of self.now) key.now) }
    {
        if is_namespace(key) {
            self.holds_objects(&key.name)
        } else {
            Ok(false)
        }
    }

    /// Whether a key is of a namespace that holds an object.
    fn holds_full(&self, keys: &[Key]) -> Result<bool, Memory>
        ensures { IfOk result (λ b. b ≡ list_any (is_full_namespace (plain_of self.now)) keys.now) }
    {
        for key in keys {
            if self.is_full(key)? {
                return Ok(true);
            }
        }
        Ok(false)
    }

    /// Whether there is an object at each of the keys.
    fn has_all(&self, keys: &[Key]) -> bool
        ensures { result ≡ list_all (λ k. has_object_at k (plain_of self.now)) keys.now }
    {
        keys.iter().all(|key| self.has_object(key))
    }

    /// Checks that the objects at the keys can be removed; refused, in this order, if one of them does not exist
    /// (`Missing`) and where one is a namespace that holds an object (`NamespaceNotEmpty`).
    #[tactic(auto, unfolding(crate::specs::Plain::removable))]
    fn check_removal(&self, keys: &[Key]) -> Result<(), StoreError>
        ensures { ResultIs fault_of (λ u. u) result (removable (plain_of self.now) keys.now) }
    {
        if !self.has_all(keys) {
            return Err(StoreError::Missing);
        }
        if self.holds_full(keys)? {
            return Err(StoreError::NamespaceNotEmpty);
        }
        Ok(())
    }

    /// Prepares the removal of the objects at the keys, one revision each: makes every allocation that it needs, and
    /// changes nothing. The empty list changes nothing.
    ///
    /// Refused, in this order, if one of the objects does not exist (`Missing`), if one is a namespace that
    /// holds an object, be it one of those to be removed (`NamespaceNotEmpty`), and where fewer revisions are left
    /// than there are keys (`RevisionsUsedUp`).
    pub fn remove(&self, keys: Vec<Key>) -> Result<Ready, StoreError>
        requires { IsDistinct is_key keys.items }
        ensures gives { ResultIs fault_of (map plain_change) result (removal (plain_of self.now) keys.items) }
        ensures fits { IfOk result (Fits self.now) }
    {
        self.check_removal(keys.as_slice())?;
        self.check_revisions(keys.len() as u64)?;
        Ok(Ready::removals(self.alloc, &self.slots, &self.hidden, self.revision, keys)?)
    }

    /// Makes the changes of a prepared write. Allocates nothing and cannot fail.
    pub fn commit(&mut self, ready: Ready)
        requires { Fits self.old ready }
        ensures objects { objects_of self.new ≡ placed_all (left_by ready) (objects_of self.old) }
        ensures revision { self.new.revision ≡ self.old.revision + length ready }
        ensures table { self.new.table ≡ self.old.table }
        ensures first { self.new.first ≡ self.old.first }
        ensures stands { (history : List PlainChange) (p : Plain) → RefinesPlain self.old history p
            → RefinesPlain self.new (history ++ map plain_change ready) (written (map plain_change ready) p) }
    {
        let (list, mut kept) = ready.into_parts();
        for change in list {
            self.make(change, kept.take());
        }
    }

    /// Makes one change.
    fn make(&mut self, change: Change, kept: Option<Shared>)
        requires fits { Fits self.old (change ∷ []) }
        requires kept { kept ≡ change.new }
        ensures objects { objects_of self.new ≡ placed change.key change.new (objects_of self.old) }
        ensures revision { self.new.revision ≡ self.old.revision + 1 }
        ensures window { self.new.window ≡ last_of WINDOW (self.old.window ++ change ∷ []) }
        ensures table { self.new.table ≡ self.old.table }
        ensures first { self.new.first ≡ self.old.first }
    {
        place(&mut self.slots, &mut self.hidden, &change.key, kept);
        forget_if_removed(&mut self.known, &change);
        self.revision = change.revision;
        self.window.note(change);
    }
}
