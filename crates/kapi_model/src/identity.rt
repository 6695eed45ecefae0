use kapi_text::{Sequence, Text, TryCopy};
use std::alloc::{AllocError, Global};

/// The identity that makes requests: a user and the user's groups (Kubernetes, 'Authenticating').
#[derive(Drop)]
pub struct Identity {
    pub user: Text,
    pub groups: Sequence<Text>,
}

impl TryCopy for Identity {
    fn copy(&self, alloc: Global) -> Result<Identity, AllocError> {
        Ok(Identity {
            user: self.user.copy(alloc)?,
            groups: self.groups.copy(alloc)?,
        })
    }
}

impl Identity {
    ghost use Rattle.std.specs.Prelude.{◌≡◌};
    ghost use Rattle.kapi_model.specs.Identities as membership;

    /// Whether the group is one of the identity's. Allocates nothing.
    pub fn is_in(&self, group: &str) -> bool
        ensures { result ≡ membership.is_in group.now self.now }
    {
        self.groups
            .as_slice()
            .iter()
            .any(|other| other.as_str() == group)
    }

    /// Whether the identity is in `system:masters`, whose members may do everything (Kubernetes, 'Using RBAC
    /// Authorization', 'User-facing roles'). Allocates nothing.
    pub fn is_master(&self) -> bool
        ensures { result ≡ membership.is_master self.now }
    {
        self.is_in("system:masters")
    }
}
