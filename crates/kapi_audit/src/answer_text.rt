//! The line that answers a question.
ghost use Rattle.std.specs.Prelude.{◌≡◌, IfOk};
ghost use Rattle.kapi_policy.specs.Views.{decision_of};
ghost use Rattle.kapi_publishing.specs.Boards.{seat_decision};
ghost use Rattle.kapi_engine.specs.Lines.{decision_line as line_of};

use kapi_engine::decision_line;
use kapi_policy::{Decision, Grant};
use kapi_publishing::SeatDecision;
use kapi_text::{Memory, Sequence};
use std::alloc::Global;

/// The decision without names of its own.
fn lent(decision: &SeatDecision) -> Decision<'_>
    ensures { decision_of result ≡ seat_decision decision.now }
{
    match decision {
        SeatDecision::Allowed(grant) => Decision::Allowed(Grant {
            kind: grant.kind,
            binding: grant.binding.as_str(),
            role: &grant.role,
            rule: grant.rule,
        }),
        SeatDecision::Masters => Decision::Masters,
        SeatDecision::Denied => Decision::Denied,
    }
}

/// The line of a decision: `denied`, or `allowed` and the reason that a review reports, in printable ASCII.
pub fn answer_text(alloc: Global, decision: &SeatDecision) -> Result<Sequence<u8>, Memory>
    ensures { IfOk result (λ t. t ≡ line_of (seat_decision decision.now)) }
{
    decision_line(alloc, &lent(decision))
}
