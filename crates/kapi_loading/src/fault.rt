use kapi_text::Memory;
use thiserror::Error;

/// Why no machine was made of a file of objects.
#[derive(Clone, Copy, Debug, PartialEq, Eq, Error)]
pub enum StartError {
    /// The line of this number holds no object that can be created; the first line is 1.
    #[error("load line {0}")]
    Line(usize),
    #[error("out of memory")]
    Memory,
}

impl From<Memory> for StartError {
    ghost use Rattle.std.specs.Prelude.{◌≡◌};
    ghost use Rattle.kapi_loading.specs.declared.fault.StartError.TheVariants.{Memory as NoMemory};

    ghost from_gives = { λ _ e. e ≡ NoMemory };

    fn from(_error: Memory) -> StartError {
        StartError::Memory
    }
}
