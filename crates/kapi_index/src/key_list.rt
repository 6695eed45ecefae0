ghost use Rattle.std.specs.Prelude.{◌≡◌, []};
ghost use Rattle.kapi_index.specs.Listed.{AreKeys, is_key};

use kapi_text::Text;
use std::alloc::Global;
use std::marker::Model;

/// Users or groups in the order of their bytes, so that one is found among many without a walk.
#[derive(Drop)]
pub struct KeyList {
    keys: Vec<Text>,
}

impl Model for KeyList {
    ghost use Rattle.std.specs.Prelude.{List, ℕ};
    ghost use Rattle.std.specs.List.Sorted.{IsSorted};
    ghost use Rattle.kapi_policy.specs.Objects.{name_cmp};

    ghost Value = { List (List ℕ) };

    ghost view = { λ k. k.keys.items };

    ghost invariant = { λ k. IsSorted name_cmp k.keys.items };
}

impl KeyList {
    /// No keys. Allocates nothing.
    pub fn none(alloc: Global) -> KeyList
        ensures { result ≡ [] }
    {
        KeyList {
            keys: Vec::new(alloc),
        }
    }

    /// The keys in order. Allocates nothing.
    pub fn of(keys: Vec<Text>) -> KeyList
        ensures { AreKeys result keys.items }
    {
        let mut keys = keys;
        keys.sort_unstable();
        KeyList { keys }
    }

    /// The keys, borrowed.
    pub fn as_slice(&self) -> &[Text]
        ensures { result.now ≡ self.now }
    {
        self.keys.as_slice()
    }

    /// Whether the key is there.
    pub fn contains(&self, key: &Text) -> bool
        ensures { result ≡ is_key key.now self.now }
    {
        self.keys.binary_search(key).is_ok()
    }
}
