ghost use Rattle.std.specs.Prelude.{◌≡◌, [], ◌∷◌, IfOk};
ghost use Rattle.std.specs.List.{IsDistinct};

use kapi_text::{Memory, Text, TryCopy};
use std::alloc::{AllocError, Global};
use std::cmp::Ordering;

/// The place of an object. Keys are in order of group, resource, namespace and name, each by its bytes.
#[derive(PartialEq, Eq, Drop)]
pub struct Key {
    /// The API group, empty for the core group.
    pub group: Text,
    /// The resource's name in paths, in the plural.
    pub resource: Text,
    /// The namespace, empty for a cluster-scoped object.
    pub namespace: Text,
    pub name: Text,
}

impl PartialOrd for Key {
    ghost use Rattle.std.proofs.Common.{rules};
    ghost use Rattle.std.specs.Cmp.{partial_order_from_own_ties};
    ghost use Rattle.std.specs.Cmp.Rules.{comparing};
    ghost use Rattle.std.specs.Ordering.{as_partial_cmp};
    ghost use Rattle.kapi_store.specs.Keys.{key_cmp};

    ghost partial_cmp = { as_partial_cmp key_cmp };

    ghost laws = { partial_order_from_own_ties (Prim.search (comparing, rules)) (Prim.search (comparing, rules)) };

    fn partial_cmp(&self, other: &Key) -> Option<Ordering> {
        Some(self.cmp(other))
    }
}

impl Ord for Key {
    ghost use Rattle.std.specs.Prelude.{refl};
    ghost use Rattle.std.specs.Cmp.{then_total, both_tied};
    ghost use Rattle.std.specs.Cmp.Lexicographic.{on_texts, texts_ties};
    ghost use Rattle.kapi_store.specs.Keys.{key_cmp};

    ghost cmp = { key_cmp };

    ghost total = { then_total (on_texts (λ k. k.group)) (then_total (on_texts (λ k. k.resource)) (then_total (on_texts (λ k. k.namespace)) (on_texts (λ k. k.name)))) };

    ghost matches_partial_cmp = { λ a b. refl };

    ghost matches_eq = { λ a b. both_tied _ _ _ _ (texts_ties a.group b.group) (both_tied _ _ _ _ (texts_ties a.resource b.resource) (both_tied _ _ _ _ (texts_ties a.namespace b.namespace) (texts_ties a.name b.name))) };

    // Compared keys mostly share a resource, so equality is tested first: it takes less time than order.
    #[tactic(auto, using(crate::proofs::Keys::key_by_texts))]
    fn cmp(&self, other: &Key) -> Ordering {
        if self.group != other.group {
            return self.group.cmp(&other.group);
        }
        if self.resource != other.resource {
            return self.resource.cmp(&other.resource);
        }
        if self.namespace != other.namespace {
            return self.namespace.cmp(&other.namespace);
        }
        self.name.cmp(&other.name)
    }
}

impl TryCopy for Key {
    fn copy(&self, alloc: Global) -> Result<Key, AllocError> {
        Ok(Key {
            group: self.group.copy(alloc)?,
            resource: self.resource.copy(alloc)?,
            namespace: self.namespace.copy(alloc)?,
            name: self.name.copy(alloc)?,
        })
    }
}

impl Key {
    ghost use Rattle.kapi_store.specs.Keys.{is_key, namespace_key};

    /// The place of the Namespace object of this name.
    pub(crate) fn of_namespace(alloc: Global, name: &Text) -> Result<Key, Memory>
        ensures { IfOk result (λ k. k ≡ namespace_key name.now) }
    {
        Ok(Key {
            group: Text::copy_of(alloc, "")?,
            resource: Text::copy_of(alloc, "namespaces")?,
            namespace: Text::copy_of(alloc, "")?,
            name: name.copy(alloc)?,
        })
    }

    /// The list of this key alone, as for a removal.
    pub fn alone(self, alloc: Global) -> Result<Vec<Key>, Memory>
        ensures items { IfOk result (λ v. v.items ≡ self ∷ []) }
        ensures distinct { IfOk result (λ v. IsDistinct is_key v.items) }
    {
        let mut keys = Vec::with_capacity(alloc, 1)?;
        keys.push(self)?;
        Ok(keys)
    }
}
