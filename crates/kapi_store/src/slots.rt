//! The map's slots, each a key with its object. The slot of a new object is hidden from when its creation is prepared
//! until it is made: so that needs no memory, and need not look for the slot.

ghost use Rattle.std.specs.Prelude.{◌≡◌, true, false, None, Some, IsSome, OnOk, IfOk, option_copied, option_map};
ghost use Rattle.std.specs.Bool.{Decides};
ghost use Rattle.std.specs.List.Sorted.{IsStrictlySortedBy};
ghost use Rattle.std.specs.Map.{lookup, keys_of, set_value};
ghost use Rattle.kapi_store.specs.Keys.{key_cmp, is_key};
ghost use Rattle.kapi_store.specs.Changes.{placed};
ghost use Rattle.kapi_store.specs.Private.Hidden.{hides, visible, HoldsHidden};
ghost use Rattle.kapi_store.specs.declared.stored.StoredObject.{StoredObject};

use crate::change::Shared;
use crate::key::Key;
use kapi_text::{Memory, TryCopy};
use std::alloc::Global;
use std::collections::BTreeMap;

/// The slot of an object that is still to be created. The object is known here besides, so that the write which creates
/// it need not look into the slot.
#[derive(Drop)]
pub struct Hidden {
    pub key: Key,
    pub object: Shared,
}

/// Whether the key is that of the hidden slot.
pub fn is_hidden(hidden: &Option<Hidden>, key: &Key) -> bool
    ensures { result ≡ hides hidden.now key.now }
{
    match hidden {
        Some(hidden) => hidden.key.cmp(key).is_eq(),
        None => false,
    }
}

/// The object at the key, if any.
#[tactic(auto, using(crate::proofs::SlotSteps::lookup_visible))]
pub fn find<'a>(
    slots: &'a BTreeMap<Key, Shared>,
    hidden: &Option<Hidden>,
    key: &Key,
) -> Option<&'a Shared>
    ensures { option_copied result ≡ lookup (is_key key.now) (visible hidden.now slots.now.entries) }
{
    if is_hidden(hidden, key) {
        return None;
    }
    slots.get(key)
}

/// A counted reference to the object at the key, if there is one.
pub fn share_at(
    slots: &BTreeMap<Key, Shared>,
    hidden: &Option<Hidden>,
    key: &Key,
) -> Result<Option<Shared>, Memory>
    ensures { IfOk result (λ o. o ≡ lookup (is_key key.now) (visible hidden.now slots.now.entries)) }
{
    match find(slots, hidden, key) {
        Some(object) => Ok(Some(object.share()?)),
        None => Ok(None),
    }
}

/// Shows the hidden slot if it is that of the key, and gives its object.
fn reveal(hidden: &mut Option<Hidden>, key: &Key) -> Option<Shared>
    ensures shown { hides hidden.old key.now ≡ true → (hidden.new ≡ None) × (result ≡ option_map (λ h. h.object) hidden.old) }
    ensures other { hides hidden.old key.now ≡ false → (hidden.new ≡ hidden.old) × (result ≡ None) }
{
    if !is_hidden(hidden, key) {
        return None;
    }
    let Some(slot) = hidden.take() else {
        return None;
    };
    let Hidden { key: _, object } = slot;
    Some(object)
}

/// Whether what was hidden is the object.
fn is_it(waiting: &Option<Shared>, object: &Shared) -> bool
    ensures { Decides result (waiting.now ≡ Some object.now) }
{
    match waiting {
        Some(waiting) => waiting.get().is_same(object.get()),
        None => false,
    }
}

/// Puts the object into its slot.
fn fill_slot(slots: &mut BTreeMap<Key, Shared>, key: &Key, object: Shared)
    requires ordered { IsStrictlySortedBy key_cmp (keys_of slots.old.entries) }
    requires slot { IsSome (lookup (is_key key.now) slots.old.entries) }
    ensures entries { slots.new.entries ≡ set_value (is_key key.now) slots.old.entries object }
    ensures ordered { IsStrictlySortedBy key_cmp (keys_of slots.new.entries) }
{
    let slot = slots.get_mut(key).unwrap();
    *slot = object;
}

/// Puts the object into its slot, or takes the slot out if there is no object. A hidden slot is shown: if it holds
/// the object already, nothing else is done.
#[tactic(auto, unfolding(crate::specs::Changes::placed))]
pub fn place(
    slots: &mut BTreeMap<Key, Shared>,
    hidden: &mut Option<Hidden>,
    key: &Key,
    object: Option<Shared>,
)
    requires ordered { IsStrictlySortedBy key_cmp (keys_of slots.old.entries) }
    requires holds { HoldsHidden hidden.old slots.old.entries }
    requires slot { IsSome object → IsSome (lookup (is_key key.now) slots.old.entries) }
    ensures objects { visible hidden.new slots.new.entries ≡ placed key.now object (visible hidden.old slots.old.entries) }
    ensures ordered { IsStrictlySortedBy key_cmp (keys_of slots.new.entries) }
    ensures holds { HoldsHidden hidden.new slots.new.entries }
{
    let waiting = reveal(hidden, key);
    match object {
        Some(object) if is_it(&waiting, &object) => {}
        Some(object) => fill_slot(slots, key, object),
        None => drop(slots.remove(key)),
    }
}

/// Takes the hidden slot out, if there is one.
fn sweep(slots: &mut BTreeMap<Key, Shared>, hidden: Option<Hidden>)
    requires { IsStrictlySortedBy key_cmp (keys_of slots.old.entries) }
    ensures objects { slots.new.entries ≡ visible hidden slots.old.entries }
    ensures ordered { IsStrictlySortedBy key_cmp (keys_of slots.new.entries) }
{
    match hidden {
        Some(slot) => drop(slots.remove(&slot.key)),
        None => {}
    }
}

/// Makes a hidden slot for a new object at the key, if no object is, in place of the slot that an earlier write left
/// hidden. The objects stay.
pub fn reserve_slot(
    alloc: Global,
    slots: &mut BTreeMap<Key, Shared>,
    hidden: &mut Option<Hidden>,
    key: Key,
    object: Shared,
) -> Result<(), Memory>
    requires ordered { IsStrictlySortedBy key_cmp (keys_of slots.old.entries) }
    requires holds { HoldsHidden hidden.old slots.old.entries }
    requires free { lookup (is_key key) (visible hidden.old slots.old.entries) ≡ None }
    ensures objects { visible hidden.new slots.new.entries ≡ visible hidden.old slots.old.entries }
    ensures ordered { IsStrictlySortedBy key_cmp (keys_of slots.new.entries) }
    ensures holds { HoldsHidden hidden.new slots.new.entries }
    ensures slot { OnOk result (IsSome (lookup (is_key key) slots.new.entries)) }
{
    let slot = Hidden {
        key: key.copy(alloc)?,
        object: object.share()?,
    };
    sweep(slots, hidden.take());
    drop(slots.insert(key, object)?);
    *hidden = Some(slot);
    Ok(())
}
