ghost use Rattle.std.specs.Prelude.{◌≡◌};

use kapi_model::FieldFault;
use kapi_text::Sequence;
use std::alloc::AllocError;

/// Why a review is not answered.
#[derive(Drop)]
pub enum ReviewError {
    /// Members of the review are at fault: each fault in order.
    Invalid(Sequence<FieldFault>),
    Memory,
}

impl From<AllocError> for ReviewError {
    ghost use Rattle.kapi_reviews.specs.declared.review_error.ReviewError.TheVariants.{Memory as WantOfMemory};

    ghost from_gives = { λ _ e. e ≡ WantOfMemory };

    fn from(_error: AllocError) -> ReviewError {
        ReviewError::Memory
    }
}
