//! Sets of names under keys.
ghost use Rattle.std.specs.Prelude.{◌≡◌, ◌==◌, ◌∷◌, [], length, OnErr, OnOk, option_copied};
ghost use Rattle.std.specs.BTreeMap.Range.{is_from_start};
ghost use Rattle.std.specs.List.{find};
ghost use Rattle.std.specs.Range.Bound.{bound_map};
ghost use Rattle.kapi_policy.specs.Objects.{name_cmp};
ghost use Rattle.kapi_index.specs.Listed.{Adds, AreOrdered, AreSame, HasAt, Removes, names_at};

use crate::key_list::KeyList;
use crate::names::NameSet;
use kapi_text::{Memory, Text, TryCopy};
use std::alloc::Global;
use std::collections::BTreeMap;
use std::ops::Bound;

/// The names of bindings under each key, a user or a group.
pub type NameSets = BTreeMap<Text, NameSet>;

/// The first name under a key from the start on.
pub fn first_under<'a>(sets: &'a NameSets, key: &Text, start: Bound<&Text>) -> Option<&'a Text>
    ensures { option_copied result ≡ find (is_from_start name_cmp (bound_map (λ x. x.now) start.entry)) (names_at sets.now.entries key.now) }
{
    match sets.get(key) {
        Some(names) => names.first_from(start),
        None => None,
    }
}

// The name under a key that has none yet.
fn add_key(alloc: Global, sets: &mut NameSets, key: &Text, name: Text) -> Result<(), Memory>
    requires absent { names_at sets.old.entries key.now ≡ [] }
    ensures done { OnOk result (Adds (key.now ∷ []) name sets.old.entries sets.new.entries) }
    ensures kept { OnErr result (AreSame sets.old.entries sets.new.entries) }
    ensures ordered { AreOrdered sets.old.entries → AreOrdered sets.new.entries }
{
    let key = key.copy(alloc)?;
    let mut names = NameSet::new();
    names.insert(alloc, name)?;
    drop(sets.insert(key, names)?);
    Ok(())
}

/// Puts the name under the key.
fn add(alloc: Global, sets: &mut NameSets, key: &Text, name: &Text) -> Result<(), Memory>
    ensures done { OnOk result (Adds (key.now ∷ []) name.now sets.old.entries sets.new.entries) }
    ensures kept { OnErr result (AreSame sets.old.entries sets.new.entries) }
    ensures ordered { AreOrdered sets.old.entries → AreOrdered sets.new.entries }
{
    let name = name.copy(alloc)?;
    match sets.get_mut(key) {
        Some(names) => names.insert(alloc, name),
        None => add_key(alloc, sets, key, name),
    }
}

// Takes the name out under the key, and returns whether no name is left there.
fn take_name(sets: &mut NameSets, key: &Text, name: &Text) -> bool
    ensures gone { Removes (key.now ∷ []) [] name.now sets.old.entries sets.new.entries }
    ensures ordered { AreOrdered sets.old.entries → AreOrdered sets.new.entries }
    ensures empty { result ≡ (length (names_at sets.new.entries key.now) == 0) }
{
    match sets.get_mut(key) {
        Some(names) => {
            names.remove(name);
            names.is_empty()
        }
        None => true,
    }
}

/// Takes the name out under the key.
fn remove(sets: &mut NameSets, key: &Text, name: &Text)
    ensures gone { Removes (key.now ∷ []) [] name.now sets.old.entries sets.new.entries }
    ensures ordered { AreOrdered sets.old.entries → AreOrdered sets.new.entries }
{
    if take_name(sets, key, name) {
        drop(sets.remove(key));
    }
}

// Takes the name out under the key, unless the key is one of those that are kept.
fn remove_unless_kept(sets: &mut NameSets, key: &Text, kept: &KeyList, name: &Text)
    ensures gone { Removes (key.now ∷ []) kept.now name.now sets.old.entries sets.new.entries }
    ensures ordered { AreOrdered sets.old.entries → AreOrdered sets.new.entries }
{
    if !kept.contains(key) {
        remove(sets, key, name);
    }
}

/// Removes the name from all keys except the kept ones.
pub fn remove_all(sets: &mut NameSets, keys: &[Text], kept: &KeyList, name: &Text)
    ensures gone { Removes keys.now kept.now name.now sets.old.entries sets.new.entries }
    ensures ordered { AreOrdered sets.old.entries → AreOrdered sets.new.entries }
{
    for key in keys {
        remove_unless_kept(sets, key, kept, name);
    }
}

/// Puts the name under the keys. A failed allocation changes nothing: the name stays under the keys that had it before.
pub fn add_all(
    alloc: Global,
    sets: &mut NameSets,
    keys: &[Text],
    kept: &KeyList,
    name: &Text,
) -> Result<(), Memory>
    requires had { HasAt kept.now name.now sets.old.entries }
    ensures done { OnOk result (Adds keys.now name.now sets.old.entries sets.new.entries) }
    ensures kept { OnErr result (AreSame sets.old.entries sets.new.entries) }
    ensures ordered { AreOrdered sets.old.entries → AreOrdered sets.new.entries }
{
    for key in keys {
        if let Err(refused) = add(alloc, sets, key, name) {
            remove_all(sets, keys, kept, name);
            return Err(refused);
        }
    }
    Ok(())
}
