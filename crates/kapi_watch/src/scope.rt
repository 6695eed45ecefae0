//! What a watch selects, and what it shows of a change.
ghost use Rattle.std.specs.Prelude.{◌≡◌, ◌≤◌, ◌+◌, true, IfOk, None, Some, map, length, drop, is_some, option_map, slice_get};
ghost use Rattle.std.specs.List.{filter_map, position_or_len};
ghost use Rattle.kapi_store.specs.Stored.{stored_tree};
ghost use Rattle.kapi_store.specs.Lent.{changes_of};
ghost use Rattle.kapi_store.specs.Listing.{is_asked as is_asked_of, is_within as is_within_of};
ghost use Rattle.kapi_store.specs.Plain.{plain_change};
ghost use Rattle.kapi_store.specs.Gone.{at_version};
ghost use Rattle.kapi_watch.specs.Shown.{removed_tree, selected as selected_of, shown_of, found_of};

use crate::event::{Event, Removed};
use kapi_model::{ResourceRow, Selector};
use kapi_store::{Change, Changes, Key, Matcher, Shared, StoredObject, is_asked};
use kapi_text::{Memory, Text, TryCopy};
use std::alloc::Global;
use std::marker::Model;

/// A selector, with the form in which labels are looked up in it.
#[derive(Drop)]
pub struct PreparedSelector {
    selector: Selector,
    matcher: Matcher,
}

impl Model for PreparedSelector {
    ghost use Rattle.kapi_model.specs.declared.selector.Selector.{Selector};
    ghost use Rattle.kapi_store.specs.Matching.{Meets};

    ghost Value = { Selector };

    ghost view = { λ p. p.selector };

    ghost invariant = { λ p. Meets p.matcher p.selector };
}

impl PreparedSelector {
    ghost use Rattle.std.specs.Prelude.{◌≡◌, codes, IfOk};
    ghost use Rattle.kapi_model.specs.Selector.{matches};
    ghost use Rattle.kapi_object.specs.Tree.{in_metadata};
    ghost use Rattle.kapi_store.specs.Stored.{stored_tree};

    /// A copy of a selector, prepared.
    fn new(alloc: Global, selector: &Selector) -> Result<PreparedSelector, Memory>
        ensures { IfOk result (λ p. p ≡ selector.now) }
    {
        Ok(PreparedSelector {
            selector: selector.copy(alloc)?,
            matcher: Matcher::of(alloc, selector)?,
        })
    }

    /// The selector.
    pub fn get(&self) -> &Selector
        ensures { result.now ≡ self.now }
    {
        &self.selector
    }

    /// Whether the selector matches the object's labels. Allocates nothing.
    fn selects(&self, object: &StoredObject) -> bool
        ensures { result ≡ matches self.now (in_metadata (codes "labels") (stored_tree object.now)) }
    {
        self.matcher.selects(object)
    }
}

/// Which objects a watch shows.
#[derive(Drop)]
pub struct WatchScope {
    pub row: ResourceRow,
    /// The namespace, empty for all namespaces.
    pub namespace: Text,
    pub selector: PreparedSelector,
    /// The name, empty for all names.
    pub name: Text,
}

/// What a change shows, with its revision.
#[derive(Clone, Copy)]
pub struct ShownChange<'a> {
    pub revision: u64,
    pub event: Event<'a>,
}

/// Whether the key is in the namespace that is asked for; if an empty one is asked for, any is. Most others are of
/// another length, which is seen without a call.
fn is_in_namespace(namespace: &str, key: &Key) -> bool
    ensures { result ≡ is_asked_of namespace.now key.now.namespace }
{
    let other = key.namespace.as_str();
    namespace.is_empty() || (namespace.len() == other.len() && namespace == other)
}

impl WatchScope {
    /// The scope of the objects of a resource type, in the namespace or in all, by labels, and of the name or any.
    pub fn new(
        alloc: Global,
        row: &ResourceRow,
        namespace: &str,
        selector: &Selector,
        name: &str,
    ) -> Result<WatchScope, Memory>
        ensures { IfOk result (λ s. s ≡ record { row = row.now; namespace = namespace.now; selector = selector.now; name = name.now }) }
    {
        Ok(WatchScope {
            row: row.copy(alloc)?,
            namespace: Text::copy_of(alloc, namespace)?,
            selector: PreparedSelector::new(alloc, selector)?,
            name: Text::copy_of(alloc, name)?,
        })
    }

    /// Whether the key is within the scope, whose namespace is given. It is compared first, since most changes are of
    /// another.
    #[tactic(auto, using(crate::proofs::Scopes::is_within_swaps))]
    fn is_within(&self, namespace: &str, key: &Key) -> bool
        requires { namespace.now ≡ self.now.namespace }
        ensures { result ≡ is_within_of self.now.row self.now.namespace self.now.name key.now }
    {
        is_in_namespace(namespace, key)
            && (self.row.plural == key.resource
                && (self.row.group == key.group && is_asked(self.name.as_str(), &key.name)))
    }

    /// The object at a key within the scope, if there is one that is watched.
    #[tactic(auto, unfolding(kapi_store::specs::Listing::is_listed))]
    fn selected<'a>(&self, key: &Key, object: &'a Option<Shared>) -> Option<&'a StoredObject>
        requires { is_within_of self.now.row self.now.namespace self.now.name key.now ≡ true }
        ensures { option_map (λ o. stored_tree o.now) result ≡ selected_of self.now key.now (option_map stored_tree object.now) }
    {
        match object {
            Some(object) if self.selector.selects(object.get()) => Some(object.get()),
            _none => None,
        }
    }

    /// The object that goes by a change: it was watched before, and nothing watched is there after the change.
    fn removed<'a>(&self, change: &'a Change, old: &'a StoredObject) -> Option<Removed<'a>>
        requires was { option_map stored_tree change.now.old ≡ Some (stored_tree old.now) }
        requires watched { selected_of self.now change.now.key (Some (stored_tree old.now)) ≡ Some (stored_tree old.now) }
        requires gone { selected_of self.now change.now.key (option_map stored_tree change.now.new) ≡ None }
        ensures { option_map removed_tree result ≡ Some (at_version change.now.revision (stored_tree old.now)) }
    {
        Some(Removed {
            object: old,
            revision: change.revision,
            text: change.gone.as_ref()?,
        })
    }

    /// The object before a change, if it was watched; `is_watched` says whether the one after it is. If the labels
    /// stay, the selector is not asked again, since it is met by both or by neither.
    fn selected_before<'a>(&self, change: &'a Change, is_watched: bool) -> Option<&'a StoredObject>
        requires within { is_within_of self.now.row self.now.namespace self.now.name change.now.key ≡ true }
        requires after { is_watched ≡ is_some (selected_of self.now change.now.key (option_map stored_tree change.now.new)) }
        ensures { option_map (λ o. stored_tree o.now) result ≡ selected_of self.now change.now.key (option_map stored_tree change.now.old) }
    {
        if change.gone.is_some() {
            return self.selected(&change.key, &change.old);
        }
        let old = change.old.as_ref()?;
        if is_watched { Some(old.get()) } else { None }
    }

    /// What a change at a key within the scope shows, if anything.
    #[tactic(auto, unfolding(crate::specs::Shown::shown_of))]
    fn find_within<'a>(&self, change: &'a Change) -> Option<ShownChange<'a>>
        requires { is_within_of self.now.row self.now.namespace self.now.name change.now.key ≡ true }
        ensures { option_map found_of result ≡ shown_of self.now (plain_change change.now) }
    {
        let new = self.selected(&change.key, &change.new);
        let event = match (self.selected_before(change, new.is_some()), new) {
            (None, None) => return None,
            (None, Some(new)) => Event::Added(new),
            (Some(_old), Some(new)) => Event::Modified(new),
            (Some(old), None) => Event::Deleted(self.removed(change, old)?),
        };
        Some(ShownChange {
            revision: change.revision,
            event,
        })
    }

    /// The index of the first change from an index on that is within the scope, or how many changes there are.
    fn next_within(&self, changes: &Changes<'_>, from: usize) -> usize
        requires { from ≤ length (changes_of changes.now) }
        ensures { result ≡ from + position_or_len (λ c. is_within_of self.now.row self.now.namespace self.now.name c.key) (drop from (changes_of changes.now)) }
    {
        let namespace = self.namespace.as_str();
        let count = changes.len();
        for index in from..count {
            if self.is_within(namespace, &changes.get(index).unwrap().key) {
                return index;
            }
        }
        count
    }

    /// The first event that changes show, if any; each change is examined once.
    pub fn first_of<'a>(&self, changes: &Changes<'a>) -> Option<ShownChange<'a>>
        ensures { option_map found_of result ≡ slice_get (filter_map (shown_of self.now) (map plain_change (changes_of changes.now))) 0 }
    {
        let count = changes.len();
        let mut from = 0;
        while from < count {
            let index = self.next_within(changes, from);
            let found = self.find_within(changes.get(index)?);
            if found.is_some() {
                return found;
            }
            from = index + 1;
        }
        None
    }
}
