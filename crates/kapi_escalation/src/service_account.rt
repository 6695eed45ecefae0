//! Service accounts as users (Kubernetes, 'Managing Service Accounts').
ghost use Rattle.std.specs.Prelude.{◌≡◌, IfOk};
ghost use Rattle.kapi_escalation.specs.Impersonation.{account_in as account_in_text, named_account, service_account as service_account_of};

use kapi_model::{ServiceAccount, check_namespace_name, check_object_name};
use kapi_request_info::behind;
use kapi_text::{Memory, Text};
use std::alloc::Global;

/// The service account that a user is, if it is one.
#[tactic(auto, unfolding(crate::specs::Impersonation::service_account))]
pub fn service_account(alloc: Global, user: &str) -> Result<Option<ServiceAccount>, Memory>
    ensures { IfOk result (λ o. o ≡ service_account_of user.now) }
{
    match behind(user, "system:serviceaccount:") {
        Some(text) => account_in(alloc, text),
        None => Ok(None),
    }
}

/// The namespace and the name, parted by a colon.
#[tactic(auto, unfolding(crate::specs::Impersonation::account_in))]
fn account_in(alloc: Global, text: &str) -> Result<Option<ServiceAccount>, Memory>
    ensures { IfOk result (λ o. o ≡ account_in_text text.now) }
{
    match text.split_once(':') {
        Some((namespace, name)) => account(alloc, namespace, name),
        None => Ok(None),
    }
}

/// The account of a namespace and a name, if they are a DNS label and a DNS subdomain.
fn account(alloc: Global, namespace: &str, name: &str) -> Result<Option<ServiceAccount>, Memory>
    ensures { IfOk result (λ o. o ≡ named_account namespace.now name.now) }
{
    if check_namespace_name(namespace) && check_object_name(name) {
        Ok(Some(ServiceAccount {
            namespace: Text::copy_of(alloc, namespace)?,
            name: Text::copy_of(alloc, name)?,
        }))
    } else {
        Ok(None)
    }
}
