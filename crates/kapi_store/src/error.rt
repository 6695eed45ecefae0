use kapi_text::Text;
use std::alloc::AllocError;
use thiserror::Error;

/// Why a write was refused. The store is as before.
#[derive(PartialEq, Eq, Drop)]
pub enum StoreError {
    /// An object is at the place already.
    Exists,
    /// No object is at the place.
    Missing,
    /// The write is for another version than the stored one, which is given here.
    Conflict(Text),
    /// The place is in a namespace that does not exist.
    NoNamespace,
    /// The namespace that would be removed holds objects.
    NamespaceNotEmpty,
    /// The counter has reached the largest revision, or is too close to it.
    RevisionsUsedUp,
    /// An allocation fails.
    Memory,
}

impl From<AllocError> for StoreError {
    ghost use Rattle.std.specs.Prelude.{◌≡◌};
    ghost use Rattle.kapi_store.specs.declared.error.StoreError.TheVariants.{Memory};

    ghost from_gives = { λ _ e. e ≡ Memory };

    fn from(_refused: AllocError) -> StoreError {
        StoreError::Memory
    }
}

/// The changes after a revision are no longer all there.
#[derive(Clone, Copy, Debug, PartialEq, Eq, Drop, Error)]
#[error("the revision is older than the changes that are kept")]
pub struct TooOld;
