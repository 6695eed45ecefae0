ghost use Rattle.std.specs.Prelude.{unwrap_or};
ghost use Rattle.kapi_text.specs.ResultIs.{ResultIs};
ghost use Rattle.kapi_escalation.specs.Impersonation.{impersonated};
ghost use Rattle.kapi_reply.specs.Refusals.{refused_by};
ghost use Rattle.kapi_request_info.specs.Impersonation as fields;
ghost use Rattle.kapi_answer.specs.Impersonation.{acts_as, acts_or_refused};

use kapi_escalation::{ImpersonationRefused, check_impersonation};
use kapi_http::Header;
use kapi_model::Identity;
use kapi_policy::Policy;
use kapi_reply::{BadRequestReason, CheckError, Refusal, Refused};
use kapi_request_info::{Impersonation, ImpersonationError, impersonation};
use std::alloc::Global;

/// The identity as which a request with these header fields is made, if it is another than the caller (Kubernetes,
/// 'Authenticating', 'User impersonation').
#[tactic(auto, unfolding(crate::specs::Impersonation::acts_as))]
pub fn impersonate<P: Policy>(
    alloc: Global,
    policy: &P,
    identity: &Identity,
    headers: &[Header],
) -> Result<Option<Identity>, CheckError>
    ensures { ResultIs refused_by (λ o. unwrap_or o identity.now) result (acts_as (P.content policy.now) identity.now (fields.impersonation headers.now)) }
{
    match impersonation(alloc, headers) {
        Ok(None) => Ok(None),
        Ok(Some(wanted)) => Ok(Some(act_as(alloc, policy, identity, &wanted)?)),
        Err(ImpersonationError::BadHeaders) => Err(CheckError::Refused(Refused::asked_for(
            Refusal::BadRequest(BadRequestReason::Impersonation),
        ))),
        Err(ImpersonationError::Memory) => Err(CheckError::Memory),
    }
}

fn act_as<P: Policy>(
    alloc: Global,
    policy: &P,
    identity: &Identity,
    wanted: &Impersonation,
) -> Result<Identity, CheckError>
    ensures { ResultIs refused_by (λ i. i) result (acts_or_refused (impersonated (P.content policy.now) identity.now wanted.now)) }
{
    match check_impersonation(alloc, policy, identity, wanted) {
        Ok(other) => Ok(other),
        Err(ImpersonationRefused::Missing(points)) => Err(CheckError::Refused(Refused::asked_for(
            Refusal::Impersonation(points),
        ))),
        Err(ImpersonationRefused::Memory) => Err(CheckError::Memory),
    }
}
