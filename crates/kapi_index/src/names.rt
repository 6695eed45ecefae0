ghost use Rattle.std.specs.Prelude.{◌≡◌, ℕ, ◌==◌, ◌&&◌, ◌||◌, not, List, [], length, IfOk, OnErr, OnOk, option_copied};
ghost use Rattle.std.specs.BTreeMap.Range.{is_from_start};
ghost use Rattle.std.specs.List.{find};
ghost use Rattle.std.specs.List.Sorted.{IsStrictlySortedBy};
ghost use Rattle.std.specs.Str.{bytes_eq};
ghost use Rattle.kapi_policy.specs.Objects.{name_cmp};
ghost use Rattle.kapi_index.specs.Listed.{is_listed};
ghost use Rattle.std.specs.Range.Bound.{bound_map};

use crate::name_tree::NameTree;
use kapi_text::{Memory, Text, TryCopy};
use std::alloc::Global;
use std::marker::Model;
use std::mem::replace;
use std::ops::Bound;

/// Names in the order of their bytes, each once.
#[derive(Drop)]
pub struct NameSet {
    names: Names,
}

/// A single name needs no tree: most users have one binding.
#[derive(Drop)]
pub enum Names {
    Few(Option<Text>),
    Many(NameTree),
}

impl Model for NameSet {
    ghost use Rattle.std.specs.Prelude.{List, ℕ};
    ghost use Rattle.kapi_index.specs.NamesOf.{names_in};

    ghost Value = { List (List ℕ) };

    ghost view = { λ s. names_in s.names };
}

/// A tree of two names.
fn both(alloc: Global, one: &Text, other: Text) -> Result<NameTree, Memory>
    ensures done { IfOk result (λ names. (n : List ℕ) → is_listed n names ≡ (bytes_eq other n || bytes_eq one.now n)) }
    ensures ordered { IfOk result (IsStrictlySortedBy name_cmp) }
{
    let mut names = NameTree::new(alloc);
    names.insert(one.copy(alloc)?)?;
    names.insert(other)?;
    Ok(names)
}

/// Whether a name is from the start on.
fn is_from(start: Bound<&Text>, name: &Text) -> bool
    ensures { result ≡ is_from_start name_cmp (bound_map (λ x. x.now) start.entry) name.now }
{
    match start {
        Bound::Included(first) => first.as_str() <= name.as_str(),
        Bound::Excluded(last) => last.as_str() < name.as_str(),
        Bound::Unbounded => true,
    }
}

impl NameSet {
    /// A set without names.
    pub fn new() -> NameSet
        ensures { result ≡ [] }
    {
        NameSet {
            names: Names::Few(None),
        }
    }

    /// Puts a name in.
    pub fn insert(&mut self, alloc: Global, name: Text) -> Result<(), Memory>
        ensures done { OnOk result ((n : List ℕ) → is_listed n self.new ≡ (bytes_eq name n || is_listed n self.old)) }
        ensures kept { OnErr result (self.new ≡ self.old) }
        ensures ordered { OnOk result (IsStrictlySortedBy name_cmp self.new) }
    {
        match &mut self.names {
            Names::Few(None) => drop(replace(&mut self.names, Names::Few(Some(name)))),
            Names::Few(Some(one)) => {
                let names = both(alloc, one, name)?;
                drop(replace(&mut self.names, Names::Many(names)));
            }
            Names::Many(names) => names.insert(name)?,
        }
        Ok(())
    }

    /// Takes a name out, if it is there.
    pub fn remove(&mut self, name: &Text)
        ensures gone { (n : List ℕ) → is_listed n self.new ≡ (is_listed n self.old && not (bytes_eq name.now n)) }
        ensures ordered { IsStrictlySortedBy name_cmp self.new }
    {
        match &mut self.names {
            Names::Few(Some(one)) if &*one == name => {
                drop(replace(&mut self.names, Names::Few(None)));
            }
            Names::Few(_) => {}
            Names::Many(names) => names.remove(name),
        }
    }

    /// Whether there is no name.
    pub fn is_empty(&self) -> bool
        ensures { result ≡ (length self.now == 0) }
    {
        match &self.names {
            Names::Few(one) => one.is_none(),
            Names::Many(names) => names.is_empty(),
        }
    }

    /// The first name from the start on.
    pub fn first_from(&self, start: Bound<&Text>) -> Option<&Text>
        ensures { option_copied result ≡ find (is_from_start name_cmp (bound_map (λ x. x.now) start.entry)) self.now }
    {
        match &self.names {
            Names::Few(Some(one)) if is_from(start, one) => Some(one),
            Names::Few(_) => None,
            Names::Many(names) => names.first_from(start),
        }
    }
}
