//! What one write changes in a policy.
ghost use Rattle.std.specs.Prelude.{◌≡◌, ◌==◌, [], OnErr, OnOk, length};
ghost use Rattle.kapi_policy.specs.Steps.{AreDeletions, IsStep, after_changes};

use crate::change::PolicyChange;
use crate::policy::Policy;
use kapi_text::{Memory, Sequence};
use std::alloc::Global;
use std::marker::Model;

/// What one write changes in a policy: nothing, one object put or deleted, or several deleted.
/// Contracts see the list of changes.
#[derive(Drop)]
pub struct PolicyStep {
    changes: Sequence<PolicyChange>,
}

impl Model for PolicyStep {
    ghost use Rattle.std.specs.Prelude.{List};
    ghost use Rattle.kapi_policy.specs.declared.change.PolicyChange.{PolicyChange as AChange};
    ghost use Rattle.kapi_policy.specs.Steps.{IsStep};

    ghost Value = { List AChange };

    ghost view = { λ s. s.changes };

    ghost invariant = { λ s. IsStep s.changes };
}

impl PolicyStep {
    /// The step that changes nothing. Allocates nothing.
    pub fn nothing(alloc: Global) -> PolicyStep
        ensures { result ≡ [] }
    {
        PolicyStep {
            changes: Sequence::new(Vec::new(alloc)),
        }
    }

    /// The step of these changes: one, or deletions alone. Allocates nothing.
    pub fn of(changes: Vec<PolicyChange>) -> PolicyStep
        requires { IsStep changes.items }
        ensures { result ≡ changes.items }
    {
        PolicyStep {
            changes: Sequence::new(changes),
        }
    }

    /// The changes in their order.
    pub fn as_slice(&self) -> &[PolicyChange]
        ensures { result.now ≡ self.now }
    {
        self.changes.as_slice()
    }

    /// Whether the step changes nothing.
    pub fn is_empty(&self) -> bool
        ensures { result ≡ (length self.now == 0) }
    {
        self.changes.as_slice().is_empty()
    }

    /// Makes the changes in a policy. A failed allocation changes nothing: only one change can allocate, since
    /// deletions do not.
    #[tactic(auto, unfolding(crate::specs::Steps::after_changes))]
    pub fn apply_to<P: Policy>(&self, policy: &mut P) -> Result<(), Memory>
        ensures done { OnOk result (P.content policy.new ≡ after_changes self.now (P.content policy.old)) }
        ensures kept { OnErr result (P.content policy.new ≡ P.content policy.old) }
    {
        match self.changes.as_slice() {
            [first, deletions @ ..] => {
                policy.apply(first)?;
                delete_all(policy, deletions);
                Ok(())
            }
            [] => Ok(()),
        }
    }
}

// Makes deletions, none of which can fail.
#[tactic(auto, unfolding(crate::specs::Steps::after_changes, crate::specs::Steps::AreDeletions))]
fn delete_all<P: Policy>(policy: &mut P, deletions: &[PolicyChange])
    requires { AreDeletions deletions.now }
    ensures { P.content policy.new ≡ after_changes deletions.now (P.content policy.old) }
{
    let mut left = deletions;
    while let [deletion, later @ ..] = left {
        match policy.apply(deletion) {
            Ok(()) => {}
            Err(_refused) => unreachable!(),
        }
        left = later;
    }
}
