//! Who asks, and whether the groups of that identity are in order.
ghost use Rattle.std.specs.Prelude.{◌≡◌, true};
ghost use Rattle.std.specs.Bool.{OnTrue};
ghost use Rattle.std.specs.List.Sorted.{IsSorted};
ghost use Rattle.std.proofs.Props.{props};
ghost use Rattle.kapi_policy.specs.Objects.{name_cmp};
ghost use Rattle.kapi_index.specs.Listed.{is_key};

use kapi_model::{Identity, Subject, subject_matches};
use kapi_text::Text;

/// The number of groups up to which it is not asked whether they are in order.
const FEW_GROUPS: usize = 16;

/// The number of looks for a group that always pay before a walk over all bindings.
const MANY_LOOKS: usize = 4_096;

/// An identity, and whether its groups are known to be in the order of their bytes, so that one is found among many
/// without a walk.
#[derive(Clone, Copy)]
pub(crate) struct Asker<'a> {
    identity: &'a Identity,
    in_order: bool,
    ghost ordered: { (in_order ≡ true) → IsSorted name_cmp identity.now.groups } by { Prim.hlevel props },
}

/// Whether the groups are many, and in order.
fn are_many_in_order(groups: &[Text]) -> bool
    ensures { OnTrue result (IsSorted name_cmp groups.now) }
{
    if groups.len() <= FEW_GROUPS {
        return false;
    }
    groups.is_sorted()
}

/// Whether the group is one of groups in order.
fn search(groups: &[Text], group: &Text) -> bool
    requires { IsSorted name_cmp groups.now }
    ensures { result ≡ is_key group.now groups.now }
{
    groups.binary_search(group).is_ok()
}

impl<'a> Asker<'a> {
    ghost use Rattle.std.specs.Prelude.{◌≡◌};
    ghost use Rattle.kapi_model.specs.Identities.{is_in};
    ghost use Rattle.kapi_model.specs.Subjects.{subject_matches as matches_of};

    /// The identity as it is: each look for a group walks its groups.
    pub(crate) fn of_few_looks(identity: &'a Identity) -> Asker<'a>
        ensures { result.identity.now ≡ identity.now }
    {
        Asker {
            identity,
            in_order: false,
        }
    }

    /// The identity, its groups seen once if they are many.
    pub(crate) fn of_many_looks(identity: &'a Identity) -> Asker<'a>
        ensures { result.identity.now ≡ identity.now }
    {
        let in_order = are_many_in_order(identity.groups.as_slice());
        Asker { identity, in_order }
    }

    /// How often all groups may be looked up until a walk over so many bindings takes less, or about as little as a few
    /// thousand looks; if the groups are not in order it never does.
    pub(crate) fn look_ups(&self, bindings: usize) -> usize {
        if self.in_order {
            bindings.max(MANY_LOOKS) / (self.identity.groups.as_slice().len() + 1)
        } else {
            usize::MAX
        }
    }

    fn is_in(&self, group: &Text) -> bool
        ensures { result ≡ is_in group.now self.now.identity.now }
    {
        if self.in_order {
            search(self.identity.groups.as_slice(), group)
        } else {
            self.identity.is_in(group.as_str())
        }
    }

    /// Whether a subject of a binding in the namespace matches the identity.
    pub(crate) fn is_meant(&self, subject: &Subject, namespace: &str) -> bool
        ensures { result ≡ matches_of subject.now namespace.now self.now.identity.now }
    {
        match subject {
            Subject::Group(name) => self.is_in(name),
            _ => subject_matches(subject, namespace, self.identity),
        }
    }
}
