ghost use Rattle.std.specs.Prelude.{◌≡◌, ℕ, ◌==◌, ◌&&◌, ◌||◌, not, List, [], length, OnErr, OnOk, option_copied};
ghost use Rattle.std.specs.BTreeMap.Range.{is_from_start};
ghost use Rattle.std.specs.List.{find};
ghost use Rattle.std.specs.List.Sorted.{IsStrictlySortedBy};
ghost use Rattle.std.specs.Str.{bytes_eq};
ghost use Rattle.kapi_policy.specs.Objects.{name_cmp};
ghost use Rattle.kapi_index.specs.Listed.{is_listed};
ghost use Rattle.std.specs.Range.Bound.{bound_map};

use kapi_text::{Memory, Text};
use std::alloc::Global;
use std::collections::BTreeSet;
use std::marker::Model;
use std::ops::Bound;

/// Names in the order of their bytes, each once, in a tree.
#[derive(Drop)]
pub struct NameTree {
    set: BTreeSet<Text>,
}

impl Model for NameTree {
    ghost use Rattle.std.specs.Prelude.{List, ℕ};

    ghost Value = { List (List ℕ) };

    ghost view = { λ s. s.set.keys };
}

impl NameTree {
    /// A tree without names.
    pub fn new(alloc: Global) -> NameTree
        ensures { result ≡ [] }
    {
        NameTree {
            set: BTreeSet::new(alloc),
        }
    }

    /// Puts a name in.
    pub fn insert(&mut self, name: Text) -> Result<(), Memory>
        ensures done { OnOk result ((n : List ℕ) → is_listed n self.new ≡ (bytes_eq name n || is_listed n self.old)) }
        ensures kept { OnErr result (self.new ≡ self.old) }
        ensures ordered { OnOk result (IsStrictlySortedBy name_cmp self.new) }
    {
        self.set.insert(name)?;
        Ok(())
    }

    /// Takes a name out, if it is there.
    pub fn remove(&mut self, name: &Text)
        ensures gone { (n : List ℕ) → is_listed n self.new ≡ (is_listed n self.old && not (bytes_eq name.now n)) }
        ensures ordered { IsStrictlySortedBy name_cmp self.new }
    {
        self.set.remove(name);
    }

    /// Whether there is no name.
    pub fn is_empty(&self) -> bool
        ensures { result ≡ (length self.now == 0) }
    {
        self.set.is_empty()
    }

    /// The first name from the start on.
    pub fn first_from(&self, start: Bound<&Text>) -> Option<&Text>
        ensures { option_copied result ≡ find (is_from_start name_cmp (bound_map (λ x. x.now) start.entry)) self.now }
    {
        self.set.range((start, Bound::Unbounded)).next()
    }
}
