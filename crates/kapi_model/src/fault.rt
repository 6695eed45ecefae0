ghost use Rattle.std.specs.Prelude.{◌≡◌};

use kapi_text::Text;

/// What is wrong with a member of an object.
#[derive(Clone, Copy, PartialEq, Eq)]
pub enum FaultKind {
    /// The member is absent, or empty, if it must not be.
    Required,
    /// The member is given if it must be absent or empty.
    NotAllowedHere,
    /// The member is of another JSON type.
    WrongType,
    /// The member's value breaks a rule of its own.
    BadValue,
}

impl FaultKind {
    ghost use Rattle.kapi_model.specs.FaultKind.{cause_text};

    /// The cause in words.
    pub fn as_str(self) -> &'static str
        ensures { result.now ≡ cause_text self }
    {
        match self {
            FaultKind::Required => "required",
            FaultKind::NotAllowedHere => "not allowed here",
            FaultKind::WrongType => "wrong type",
            FaultKind::BadValue => "bad value",
        }
    }
}

/// A fault of an object: the member at fault, as in `metadata.labels`, and the cause.
#[derive(Drop)]
pub struct FieldFault {
    pub field: Text,
    pub cause: FaultKind,
}
