ghost use Rattle.std.specs.Prelude.{◌≡◌};
ghost use Rattle.kapi_answer.specs.Authorization.{authorized, is_authorized as is_authorized_by};

use kapi_model::Identity;
use kapi_policy::Policy;
use kapi_reply::{Refusal, Refused};
use kapi_request_info::Attributes;

/// Authorizes the request for the identity, by the current roles and bindings.
#[tactic(auto, unfolding(crate::specs::Authorization::authorized))]
pub fn authorize<P: Policy>(
    policy: &P,
    identity: &Identity,
    attributes: &Attributes,
) -> Result<(), Refused>
    ensures { result ≡ authorized (P.content policy.now) identity.now attributes.now }
{
    if is_authorized(policy, identity, attributes) {
        Ok(())
    } else {
        Err(Refused::asked_for(Refusal::Forbidden))
    }
}

/// Whether the identity may make the request.
pub fn is_authorized<P: Policy>(policy: &P, identity: &Identity, attributes: &Attributes) -> bool
    ensures { result ≡ is_authorized_by (P.content policy.now) identity.now attributes.now }
{
    let namespace = attributes.namespace.as_str();
    policy
        .decide(identity, namespace, &attributes.point)
        .is_allowed()
}
