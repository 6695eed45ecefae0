use std::alloc::{AllocError, AllocFailed};
use thiserror::Error;

/// Why a text is no selector.
#[derive(Clone, Copy, Debug, PartialEq, Eq, Error)]
pub enum SelectorError {
    /// The text is no list of requirements, or a key or a value breaks the rules of labels.
    #[error("the text is no label selector")]
    Syntax,
    /// An allocation fails.
    #[error("out of memory")]
    Memory,
}

impl From<AllocError> for SelectorError {
    ghost use Rattle.std.specs.Prelude.{◌≡◌};
    ghost use Rattle.kapi_model.specs.declared.selector_error.SelectorError.TheVariants.{Memory as NoMemory};

    ghost from_gives = { λ _ e. e ≡ NoMemory };

    fn from(_error: AllocError) -> SelectorError {
        SelectorError::Memory
    }
}

impl<T: Drop> From<AllocFailed<T>> for SelectorError {
    ghost use Rattle.std.specs.Prelude.{◌≡◌};
    ghost use Rattle.kapi_model.specs.declared.selector_error.SelectorError.TheVariants.{Memory as NoMemory};

    ghost from_gives = { λ _ e. e ≡ NoMemory };

    fn from(_error: AllocFailed<T>) -> SelectorError {
        SelectorError::Memory
    }
}
