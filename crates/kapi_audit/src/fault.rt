use kapi_loading::StartError;
use kapi_publishing::SeatError;
use kapi_text::Memory;
use thiserror::Error;

/// Why an audit has no answer.
#[derive(Clone, Copy, Debug, PartialEq, Eq, Error)]
pub enum AuditFault {
    /// The first line of the policy that is not loaded; the first line of a file is 1.
    #[error("policy line {0}")]
    PolicyLine(usize),
    /// The first line of the questions that is no question.
    #[error("question line {0}")]
    QuestionLine(usize),
    #[error("out of memory")]
    Memory,
    /// A reader answered by another policy than the whole one.
    #[error("a reader is busy")]
    Busy,
}

impl From<Memory> for AuditFault {
    ghost use Rattle.std.specs.Prelude.{◌≡◌};
    ghost use Rattle.kapi_audit.specs.declared.fault.AuditFault.TheVariants.{Memory as NoMemory};

    ghost from_gives = { λ _ e. e ≡ NoMemory };

    fn from(_error: Memory) -> AuditFault {
        AuditFault::Memory
    }
}

impl From<StartError> for AuditFault {
    ghost use Rattle.std.specs.Prelude.{◌≡◌};
    ghost use Rattle.kapi_audit.specs.Faults.{unloaded};

    ghost from_gives = { λ e f. f ≡ unloaded e };

    fn from(error: StartError) -> AuditFault {
        match error {
            StartError::Line(number) => AuditFault::PolicyLine(number),
            StartError::Memory => AuditFault::Memory,
        }
    }
}

impl From<SeatError> for AuditFault {
    ghost use Rattle.std.specs.Prelude.{◌≡◌};
    ghost use Rattle.kapi_audit.specs.Faults.{stopped};

    ghost from_gives = { λ e f. f ≡ stopped e };

    fn from(error: SeatError) -> AuditFault {
        match error {
            SeatError::Memory => AuditFault::Memory,
            SeatError::Busy => AuditFault::Busy,
        }
    }
}

/// Why a client's questions were not answered to their end. The answers before the fault are written.
#[derive(Clone, Copy, Debug, PartialEq, Eq, Error)]
pub enum AnswerFault {
    #[error("the questions cannot be read")]
    Read,
    #[error("the answers cannot be written")]
    Write,
    #[error("out of memory")]
    Memory,
}

impl From<Memory> for AnswerFault {
    ghost use Rattle.std.specs.Prelude.{◌≡◌};
    ghost use Rattle.kapi_audit.specs.declared.fault.AnswerFault.TheVariants.{Memory as NoMemory};

    ghost from_gives = { λ _ e. e ≡ NoMemory };

    fn from(_error: Memory) -> AnswerFault {
        AnswerFault::Memory
    }
}
