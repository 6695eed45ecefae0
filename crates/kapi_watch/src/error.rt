use std::alloc::AllocError;
use thiserror::Error;

/// Why no watch starts.
#[derive(Clone, Copy, Debug, PartialEq, Eq, Drop, Error)]
pub enum WatchError {
    /// Changes after the revision may be kept no longer.
    #[error("the revision is older than the changes that are kept")]
    TooOld,
    /// The revision is above the current one.
    #[error("the revision is above the current one")]
    TooLarge,
    /// An allocation fails.
    #[error("out of memory")]
    Memory,
}

impl From<AllocError> for WatchError {
    ghost use Rattle.std.specs.Prelude.{◌≡◌};
    ghost use Rattle.kapi_watch.specs.declared.error.WatchError.TheVariants.{Memory};

    ghost from_gives = { λ _ e. e ≡ Memory };

    fn from(_refused: AllocError) -> WatchError {
        WatchError::Memory
    }
}
