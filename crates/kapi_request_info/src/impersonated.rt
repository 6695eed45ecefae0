use kapi_text::{Memory, Sequence, Text};
use std::alloc::AllocFailed;
use thiserror::Error;

/// The identity that a request asks to act as (Kubernetes, 'Authenticating', 'User impersonation').
#[derive(Drop)]
pub struct Impersonation {
    pub user: Text,
    /// The groups in the order in which they are named; there may be none.
    pub groups: Sequence<Text>,
}

/// Why the identity that a request asks to act as is not known.
#[derive(Clone, Copy, Debug, PartialEq, Eq, Error)]
pub enum ImpersonationError {
    /// Groups without a user, two users, another field of the family, or a value that is empty or no UTF-8.
    #[error("the impersonation headers name nobody")]
    BadHeaders,
    /// An allocation fails.
    #[error("out of memory")]
    Memory,
}

impl From<Memory> for ImpersonationError {
    ghost use Rattle.std.specs.Prelude.{◌≡◌};
    ghost use Rattle.kapi_request_info.specs.declared.impersonated.ImpersonationError.TheVariants.{Memory as NoMemory};

    ghost from_gives = { λ _ e. e ≡ NoMemory };

    fn from(_error: Memory) -> ImpersonationError {
        ImpersonationError::Memory
    }
}

impl<T: Drop> From<AllocFailed<T>> for ImpersonationError {
    ghost use Rattle.std.specs.Prelude.{◌≡◌};
    ghost use Rattle.kapi_request_info.specs.declared.impersonated.ImpersonationError.TheVariants.{Memory as NoMemory};

    ghost from_gives = { λ _ e. e ≡ NoMemory };

    fn from(_error: AllocFailed<T>) -> ImpersonationError {
        ImpersonationError::Memory
    }
}
