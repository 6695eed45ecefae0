//! Which identity may impersonate which (Kubernetes, 'Authenticating', 'User impersonation').
ghost use Rattle.std.specs.Prelude.{◌≡◌, ◌++◌, IfOk};
ghost use Rattle.kapi_text.specs.ResultIs.{ResultIs};
ghost use Rattle.kapi_escalation.specs.Impersonation as acting;
ghost use Rattle.kapi_escalation.specs.Impersonation.{denied_in, impersonated};

use crate::impersonation_refused::ImpersonationRefused;
use crate::question::{denied, questions};
use crate::service_account::service_account;
use kapi_model::Identity;
use kapi_policy::Policy;
use kapi_request_info::Impersonation;
use kapi_text::{Memory, Sequence, Text, TryCopy};
use std::alloc::Global;

/// The effective identity of a request: its user and groups, if the identity may impersonate each of them.
///
/// A user `system:serviceaccount:NAMESPACE:NAME` is impersonated as that service account. If no groups are named it
/// has those of service accounts. The anonymous user is unauthenticated besides, every other is authenticated.
#[tactic(auto, unfolding(crate::specs::Impersonation::impersonated))]
pub fn check_impersonation<P: Policy>(
    alloc: Global,
    policy: &P,
    identity: &Identity,
    wanted: &Impersonation,
) -> Result<Identity, ImpersonationRefused>
    ensures { ResultIs denied_in (λ i. i) result (impersonated (P.content policy.now) identity.now wanted.now) }
{
    let questions = questions(alloc, wanted)?;
    let points = denied(alloc, policy, identity, questions.as_slice())?;
    if points.is_empty() {
        Ok(effective(alloc, wanted)?)
    } else {
        Err(ImpersonationRefused::Missing(Sequence::new(points)))
    }
}

fn effective(alloc: Global, wanted: &Impersonation) -> Result<Identity, Memory>
    ensures { IfOk result (λ i. i ≡ acting.effective wanted.now) }
{
    let identity = Identity {
        user: wanted.user.copy(alloc)?,
        groups: groups(alloc, wanted)?,
    };
    let group = standing_group(&identity);
    with_group(alloc, identity, group)
}

/// The groups that are named, or where none is named those of the user.
#[tactic(auto, unfolding(crate::specs::Impersonation::groups_of))]
fn groups(alloc: Global, wanted: &Impersonation) -> Result<Sequence<Text>, Memory>
    ensures { IfOk result (λ s. s ≡ acting.groups_of wanted.now) }
{
    if wanted.groups.as_slice().is_empty() {
        own_groups(alloc, wanted.user.as_str())
    } else {
        wanted.groups.copy(alloc)
    }
}

/// The groups of a service account; other users have none of themselves.
pub fn own_groups(alloc: Global, user: &str) -> Result<Sequence<Text>, Memory>
    ensures { IfOk result (λ s. s ≡ acting.own_groups (acting.service_account user.now)) }
{
    match service_account(alloc, user)? {
        Some(account) => account_groups(alloc, account.namespace.as_str()),
        None => Ok(Sequence::new(Vec::new(alloc))),
    }
}

fn account_groups(alloc: Global, namespace: &str) -> Result<Sequence<Text>, Memory>
    ensures { IfOk result (λ s. s ≡ acting.account_groups namespace.now) }
{
    let mut groups = Vec::new(alloc);
    groups.push(Text::copy_of(alloc, "system:serviceaccounts")?)?;
    groups.push(prefixed(alloc, "system:serviceaccounts:", namespace)?)?;
    Ok(Sequence::new(groups))
}

fn prefixed(alloc: Global, prefix: &str, text: &str) -> Result<Text, Memory>
    ensures { IfOk result (λ t. t ≡ prefix.now ++ text.now) }
{
    let mut string = String::from_str(alloc, prefix)?;
    string.push_str(text)?;
    Ok(Text::new(string))
}

/// The group of the authentication status: the anonymous user and members of `system:unauthenticated` are
/// unauthenticated; all others are authenticated.
fn standing_group(identity: &Identity) -> &'static str
    ensures { result.now ≡ acting.standing_group identity.now }
{
    if identity.user.as_str() == "system:anonymous" || identity.is_in("system:unauthenticated") {
        "system:unauthenticated"
    } else {
        "system:authenticated"
    }
}

fn with_group(alloc: Global, identity: Identity, group: &str) -> Result<Identity, Memory>
    ensures { IfOk result (λ i. i ≡ acting.with_group group.now identity) }
{
    if identity.is_in(group) {
        return Ok(identity);
    }
    let Identity { user, groups } = identity;
    let mut groups = groups.into_vec();
    groups.push(Text::copy_of(alloc, group)?)?;
    Ok(Identity {
        user,
        groups: Sequence::new(groups),
    })
}
