ghost use Rattle.std.specs.Prelude.{◌≡◌};

use kapi_rules::Point;
use kapi_text::Sequence;
use std::alloc::AllocError;

/// Why an impersonation is refused.
#[derive(Drop)]
pub enum ImpersonationRefused {
    /// The points that are denied: the one of the user, then the ones of the groups, in their order.
    Missing(Sequence<Point>),
    Memory,
}

impl From<AllocError> for ImpersonationRefused {
    ghost use Rattle.kapi_escalation.specs.declared.impersonation_refused.ImpersonationRefused.TheVariants.{Memory as WantOfMemory};

    ghost from_gives = { λ _ e. e ≡ WantOfMemory };

    fn from(_error: AllocError) -> ImpersonationRefused {
        ImpersonationRefused::Memory
    }
}
