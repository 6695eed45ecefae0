ghost use Rattle.std.specs.Prelude.{◌≡◌};

use crate::body_fields::Given;
use kapi_model::FieldFault;
use kapi_text::Sequence;
use std::alloc::AllocError;

/// Why a body is no object of its resource type: the first of these that holds.
#[derive(Drop)]
pub enum ObjectError {
    /// The bytes are no JSON object (RFC 8259).
    NotJson,
    /// A number in the body reads as a float.
    Float,
    WrongKind,
    WrongVersion,
    /// Members of the body are at fault: what the body specifies all the same, and each fault in order.
    Invalid(Given, Sequence<FieldFault>),
    Memory,
}

impl From<AllocError> for ObjectError {
    ghost use Rattle.kapi_object.specs.declared.object_error.ObjectError.TheVariants.{Memory as WantOfMemory};

    ghost from_gives = { λ _ e. e ≡ WantOfMemory };

    fn from(_error: AllocError) -> ObjectError {
        ObjectError::Memory
    }
}
