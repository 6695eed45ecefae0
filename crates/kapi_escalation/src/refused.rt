ghost use Rattle.std.specs.Prelude.{◌≡◌};

use kapi_rules::Atom;
use kapi_text::Sequence;
use std::alloc::AllocError;

/// Why a write of a policy object is refused.
#[derive(Drop)]
pub enum Refused {
    /// The writer holds no rule that implies these atoms of the rules: all of them in order, each once.
    Missing(Sequence<Atom>),
    /// A cluster role that takes its rules from others is written only by identities with full authority. These atoms
    /// of full authority are missing, in order.
    NeedsFullAuthority(Sequence<Atom>),
    /// The role that a binding refers to does not exist.
    RoleNotFound,
    /// A binding may not change its role (Kubernetes, 'Using RBAC Authorization', 'RoleBinding and
    /// ClusterRoleBinding').
    RoleRefChanged,
    Memory,
}

impl From<AllocError> for Refused {
    ghost use Rattle.kapi_escalation.specs.declared.refused.Refused.TheVariants.{Memory as WantOfMemory};

    ghost from_gives = { λ _ e. e ≡ WantOfMemory };

    fn from(_error: AllocError) -> Refused {
        Refused::Memory
    }
}
