use crate::change::{Change, Shared};
use crate::key::Key;
use crate::slots::{Hidden, share_at};
use crate::written::Written;
use kapi_object::Object;
use kapi_text::{Memory, TryCopy};
use std::alloc::Global;
use std::collections::BTreeMap;
use std::marker::Model;

/// A prepared write: the changes that `Store::commit` will make, with all their memory.
///
/// Dropping it changes nothing visible. A creation leaves a hidden slot then, which the next creation takes out.
#[derive(Drop)]
pub struct Ready {
    list: Vec<Change>,
    /// The map's share of the first change's new object; no other change has a new object.
    kept: Option<Shared>,
    /// The first change's new object as a tree, if there is one: so the policy need not read its text.
    tree: Option<Object>,
}

impl Model for Ready {
    ghost use Rattle.std.specs.Prelude.{List};
    ghost use Rattle.kapi_store.specs.declared.change.Change.{Change};
    ghost use Rattle.std.specs.Coded.{codes};
    ghost use Rattle.kapi_store.specs.contracts.change.Change as changed;
    ghost use Rattle.kapi_store.specs.Changes.{IsLeft, IsStep, IsWrite};

    ghost Value = { List Change };

    ghost coded = { Prim.hlevel (codes, changed.the_row.coded) };

    ghost view = { λ r. r.list.items };

    ghost invariant = { λ r. IsWrite r.kept r.list.items × IsStep r.list.items × IsLeft r.tree r.list.items };
}

impl Ready {
    ghost use Rattle.std.specs.Prelude.{◌≡◌, ◌+◌, ◌≤◌, IfOk, List, [], ◌∷◌, None, Some, map, length, option_copied, option_map};
    ghost use Rattle.std.specs.List.Sorted.{IsStrictlySortedBy};
    ghost use Rattle.std.specs.Map.{keys_of};
    ghost use Rattle.kapi_store.specs.declared.store.TheConstants.{LAST_REVISION};
    ghost use Rattle.kapi_store.specs.Keys.{key_cmp};
    ghost use Rattle.kapi_object.specs.Object.{tree_of};
    ghost use Rattle.kapi_store.specs.Stored.{stored_tree};
    ghost use Rattle.kapi_store.specs.Changes.{IsLeft, IsOne, IsStep, IsWrite, AreRemovals, Follow, revision_of};
    ghost use Rattle.kapi_store.specs.Private.Hidden.{visible};
    ghost use Rattle.kapi_store.specs.Plain.{plain_change, trees, removals as removals_of};

    /// The changes that `Store::commit` will make, in order: none, one, or removals alone.
    #[tactic(auto, unfolding(crate::specs::Changes::IsWrite))]
    pub fn changes(&self) -> &[Change]
        ensures list { result.now ≡ self.now }
        ensures step { IsStep self.now }
    {
        self.list.as_slice()
    }

    /// The write that changes nothing. Allocates nothing.
    #[tactic(auto, unfolding(crate::specs::Changes::IsWrite))]
    pub(crate) fn nothing(alloc: Global) -> Ready
        ensures { result ≡ [] }
    {
        Ready {
            list: Vec::new(alloc),
            kept: None,
            tree: None,
        }
    }

    /// The object that the first change leaves, as a tree; none if it leaves none.
    pub fn left(&self) -> Option<&Object>
        ensures { IsLeft (option_copied result) self.now }
    {
        self.tree.as_ref()
    }

    /// The write of one change, which leaves this object, with one more owner of it.
    #[tactic(auto, unfolding(crate::specs::Changes::IsWrite, crate::specs::Changes::AreRemovals))]
    fn of_one(alloc: Global, change: Change, tree: Object) -> Result<Ready, Memory>
        requires { option_map stored_tree change.new ≡ Some (tree_of tree) }
        ensures { IfOk result (λ r. r ≡ change ∷ []) }
    {
        let kept = match &change.new {
            Some(new) => Some(new.share()?),
            None => None,
        };
        let mut list = Vec::with_capacity(alloc, 1)?;
        list.push(change)?;
        Ok(Ready {
            list,
            kept,
            tree: Some(tree),
        })
    }

    /// The write that creates an object at the key, and one more owner of the object.
    pub(crate) fn creation(
        alloc: Global,
        revision: u64,
        key: &Key,
        written: Written,
    ) -> Result<(Ready, Shared), Memory>
        requires { stored_tree written.stored ≡ tree_of written.object }
        ensures write { IfOk result (λ r. IsOne revision key.now None (Some written.stored) r.0) }
        ensures object { IfOk result (λ r. r.1 ≡ written.stored) }
    {
        let Written { object, stored } = written;
        let new = Shared::new(alloc, stored)?;
        let shared = new.share()?;
        let change = Change::creation(revision, key.copy(alloc)?, new);
        Ok((Ready::of_one(alloc, change, object)?, shared))
    }

    /// The write that replaces the object at the key.
    pub(crate) fn replacement(
        alloc: Global,
        revision: u64,
        key: Key,
        old: &Shared,
        written: Written,
    ) -> Result<Ready, Memory>
        requires { stored_tree written.stored ≡ tree_of written.object }
        ensures { IfOk result (IsOne revision key (Some old.now) (Some written.stored)) }
    {
        let Written { object, stored } = written;
        let new = Shared::new(alloc, stored)?;
        let change = Change::replacement(alloc, revision, key, old.share()?, new)?;
        Ok(Ready::of_one(alloc, change, object)?)
    }

    /// The write that removes the objects at the keys, by the revisions after this one.
    pub(crate) fn removals(
        alloc: Global,
        slots: &BTreeMap<Key, Shared>,
        hidden: &Option<Hidden>,
        before: u64,
        keys: Vec<Key>,
    ) -> Result<Ready, Memory>
        requires left { before + length keys.items ≤ LAST_REVISION }
        ensures changes { IfOk result (λ r. map plain_change r ≡ removals_of (trees (visible hidden.now slots.now.entries)) before keys.items) }
        ensures count { IfOk result (λ r. length r ≡ length keys.items) }
        ensures removals { IfOk result AreRemovals }
        ensures numbered { IfOk result (Follow revision_of before) }
    {
        let mut list = Vec::with_capacity(alloc, keys.len())?;
        let mut revision = before;
        for key in keys {
            revision += 1;
            let old = share_at(slots, hidden, &key)?;
            list.push(Change::removal(alloc, revision, key, old)?)?;
        }
        Ok(Ready {
            list,
            kept: None,
            tree: None,
        })
    }

    /// The changes, and the map's share of the first one's new object.
    pub(crate) fn into_parts(self) -> (Vec<Change>, Option<Shared>)
        ensures list { result.0.items ≡ self }
        ensures kept { IsWrite result.1 self }
    {
        (self.list, self.kept)
    }
}
