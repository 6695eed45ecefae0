ghost use Rattle.std.specs.Prelude.{◌≡◌};
ghost use Rattle.kapi_c_requests.specs.Faults.{code_of};

use kapi_text::Memory;

/// Why a call has no answer.
#[derive(Clone, Copy, PartialEq, Eq)]
pub enum CallFault {
    Memory,
    /// The line of this number of other objects is not loaded.
    Line(usize),
    /// A text is no UTF-8.
    Text,
    /// What is asked is no question.
    Question,
}

impl CallFault {
    /// The status that C sees.
    pub fn code(self) -> u32
        ensures { result ≡ code_of self }
    {
        match self {
            CallFault::Memory => 1,
            CallFault::Line(_number) => 2,
            CallFault::Text => 3,
            CallFault::Question => 4,
        }
    }
}

impl From<Memory> for CallFault {
    ghost use Rattle.std.specs.Prelude.{◌≡◌};
    ghost use Rattle.kapi_c_requests.specs.declared.fault.CallFault.TheVariants.{Memory as NoMemory};

    ghost from_gives = { λ _ e. e ≡ NoMemory };

    fn from(_refused: Memory) -> CallFault {
        CallFault::Memory
    }
}
