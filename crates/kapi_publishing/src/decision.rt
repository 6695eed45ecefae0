ghost use Rattle.std.specs.Prelude.{◌≡◌, IfOk};
ghost use Rattle.kapi_policy.specs.Views.{decision_of, granted_of};
ghost use Rattle.kapi_publishing.specs.Boards.{seat_decision, seat_granted};

use kapi_model::RoleRef;
use kapi_policy::{BindingKind, Decision, Grant};
use kapi_text::{Memory, Text, TryCopy};
use std::alloc::Global;

/// The rule that allows a request, and the binding by which the identity holds it, with names of its own.
#[derive(Drop)]
pub struct SeatGrant {
    pub kind: BindingKind,
    /// The binding's name.
    pub binding: Text,
    /// The role that the binding refers to.
    pub role: RoleRef,
    /// The index of the rule among the role's own, from 0.
    pub rule: usize,
}

/// Whether a request is allowed, and by what, with names of its own.
#[derive(Drop)]
pub enum SeatDecision {
    Allowed(SeatGrant),
    /// The identity is of the group `system:masters`, which may do everything (Kubernetes, 'Using RBAC Authorization',
    /// 'User-facing roles').
    Masters,
    Denied,
}

impl SeatGrant {
    fn of(alloc: Global, grant: &Grant<'_>) -> Result<SeatGrant, Memory>
        ensures { IfOk result (λ g. seat_granted g ≡ granted_of grant.now) }
    {
        Ok(SeatGrant {
            kind: grant.kind,
            binding: Text::copy_of(alloc, grant.binding)?,
            role: grant.role.copy(alloc)?,
            rule: grant.rule,
        })
    }
}

impl SeatDecision {
    /// The decision with names of its own.
    pub(crate) fn of(alloc: Global, decision: &Decision<'_>) -> Result<SeatDecision, Memory>
        ensures { IfOk result (λ d. seat_decision d ≡ decision_of decision.now) }
    {
        match decision {
            Decision::Allowed(grant) => Ok(SeatDecision::Allowed(SeatGrant::of(alloc, grant)?)),
            Decision::Masters => Ok(SeatDecision::Masters),
            Decision::Denied => Ok(SeatDecision::Denied),
        }
    }
}
