ghost use Rattle.std.specs.Prelude.{◌≡◌, ℕ, List, None, Some, option_map};
ghost use Rattle.serde_json.specs.Written.{compact_text};
ghost use Rattle.kapi_store.specs.Gone.{at_version};
ghost use Rattle.kapi_store.specs.Stored.{stored_tree};
ghost use Rattle.kapi_store.specs.Labels.{labels_of};
ghost use Rattle.kapi_store.specs.declared.stored.StoredObject.{StoredObject as Stored};

use crate::key::Key;
use crate::stored::StoredObject;
use kapi_text::{Memory, Text};
use std::alloc::Global;
use std::marker::Model;
use std::rc::Rc;

/// An object with several owners: the map, the changes and their readers.
#[derive(Drop)]
pub struct Shared {
    owner: Rc<StoredObject>,
}

impl Model for Shared {
    ghost use Rattle.std.specs.Coded.{codes};
    ghost use Rattle.kapi_store.specs.declared.stored.StoredObject.{StoredObject};
    ghost use Rattle.kapi_store.specs.contracts.stored.StoredObject as held;

    ghost Value = { StoredObject };

    ghost coded = { Prim.hlevel (codes, held.the_row.coded) };

    ghost view = { λ s. s.owner.value };
}

impl Shared {
    ghost use Rattle.std.specs.Prelude.{◌≡◌, IfOk};

    /// The object's first owner.
    pub(crate) fn new(alloc: Global, object: StoredObject) -> Result<Shared, Memory>
        ensures { IfOk result (λ s. s ≡ object) }
    {
        Ok(Shared {
            owner: Rc::new(alloc, object)?,
        })
    }

    /// A counted reference to the object.
    pub fn share(&self) -> Result<Shared, Memory>
        ensures { IfOk result (λ s. s ≡ self.now) }
    {
        Ok(Shared {
            owner: self.owner.clone()?,
        })
    }

    /// The object, borrowed.
    pub fn get(&self) -> &StoredObject
        ensures { result.now ≡ self.now }
    {
        self.owner.as_ref()
    }
}

/// One change of one object.
#[derive(Drop)]
pub struct Change {
    /// The revision that the change took.
    pub revision: u64,
    pub key: Key,
    /// The object before the change; none for a creation.
    pub old: Option<Shared>,
    /// The object after the change; none for a removal.
    pub new: Option<Shared>,
    /// The text of the object before the change, with the change's revision as its version, as watches show it that see
    /// the object go; none for a creation, and where the labels stay, since then nobody sees it go.
    pub gone: Option<Text>,
    ghost seen: { (t : List ℕ) → gone ≡ Some t → option_map (λ o. compact_text (at_version revision (stored_tree o))) old ≡ Some t },
    ghost stays: { (o : Stored) → old ≡ Some o → gone ≡ None → option_map (λ n. labels_of (stored_tree n)) new ≡ Some (labels_of (stored_tree o)) },
}

impl Change {
    ghost use Rattle.std.specs.Prelude.{◌≡◌, IfOk, None, Some};

    /// The creation of an object at a key.
    pub(crate) fn creation(revision: u64, key: Key, new: Shared) -> Change
        ensures revision { result.revision ≡ revision }
        ensures key { result.key ≡ key }
        ensures old { result.old ≡ None }
        ensures new { result.new ≡ Some new }
    {
        Change {
            revision,
            key,
            old: None,
            new: Some(new),
            gone: None,
        }
    }

    /// The replacement of the object at a key.
    pub(crate) fn replacement(
        alloc: Global,
        revision: u64,
        key: Key,
        old: Shared,
        new: Shared,
    ) -> Result<Change, Memory>
        ensures revision { IfOk result (λ c. c.revision ≡ revision) }
        ensures key { IfOk result (λ c. c.key ≡ key) }
        ensures old { IfOk result (λ c. c.old ≡ Some old) }
        ensures new { IfOk result (λ c. c.new ≡ Some new) }
    {
        let gone = if new.get().is_labelled_as(old.get()) {
            None
        } else {
            Some(old.get().text_at(alloc, revision)?)
        };
        Ok(Change {
            revision,
            key,
            old: Some(old),
            new: Some(new),
            gone,
        })
    }

    /// The removal of the object at a key, if there is one.
    pub(crate) fn removal(
        alloc: Global,
        revision: u64,
        key: Key,
        old: Option<Shared>,
    ) -> Result<Change, Memory>
        ensures revision { IfOk result (λ c. c.revision ≡ revision) }
        ensures key { IfOk result (λ c. c.key ≡ key) }
        ensures old { IfOk result (λ c. c.old ≡ old) }
        ensures new { IfOk result (λ c. c.new ≡ None) }
    {
        let gone = match &old {
            Some(old) => Some(old.get().text_at(alloc, revision)?),
            None => None,
        };
        Ok(Change {
            revision,
            key,
            old,
            new: None,
            gone,
        })
    }
}
