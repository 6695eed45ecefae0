ghost use Rattle.std.specs.Prelude.{◌≡◌, ◌++◌, ◌∷◌, IfOk};
ghost use Rattle.std.specs.Str.{bytes_eq};
ghost use Rattle.kapi_model.specs.Subjects as meaning;

use crate::identity::Identity;
use crate::subject::{ServiceAccount, Subject};
use kapi_text::{Memory, Text, is_joined};
use std::alloc::Global;

/// Whether the text is the prefix, the first text, a colon, and the name.
#[tactic(auto, using(kapi_text::proofs::Prefixes::bytes_eq_append))]
fn is_prefixed_pair(text: &[u8], prefix: &[u8], first: &[u8], name: &[u8]) -> bool
    ensures { result ≡ bytes_eq text.now (prefix.now ++ (first.now ++ meaning.colon ∷ name.now)) }
{
    if !text.starts_with(prefix) {
        return false;
    }
    let (_prefix, rest) = text.split_at(prefix.len());
    is_joined(rest, first, b':', name)
}

/// Whether the user is the service account of that name in the namespace; in no namespace there is none.
fn is_account(user: &str, namespace: &str, name: &str) -> bool
    ensures { result ≡ meaning.is_account user.now namespace.now name.now }
{
    !namespace.is_empty()
        && is_prefixed_pair(
            user.as_bytes(),
            b"system:serviceaccount:",
            namespace.as_bytes(),
            name.as_bytes(),
        )
}

/// The user that the service account of the name in the namespace is.
pub fn account_user(alloc: Global, namespace: &str, name: &str) -> Result<Text, Memory>
    ensures { IfOk result (λ t. t ≡ meaning.account_user namespace.now name.now) }
{
    let mut text = String::from_str(alloc, "system:serviceaccount:")?;
    text.push_str(namespace)?;
    text.push_str(":")?;
    text.push_str(name)?;
    Ok(Text::new(text))
}

/// The namespace of a service account, or where it has none the binding's.
pub fn account_namespace<'a>(account: &'a ServiceAccount, binding_namespace: &'a str) -> &'a str
    ensures { result.now ≡ meaning.namespace_of account.now binding_namespace.now }
{
    if account.namespace.as_str().is_empty() {
        binding_namespace
    } else {
        account.namespace.as_str()
    }
}

/// Whether a subject of a binding matches the identity (Kubernetes, 'Using RBAC Authorization', 'Referring to
/// subjects'). The binding's namespace is empty for a ClusterRoleBinding. Allocates nothing.
pub fn subject_matches(subject: &Subject, binding_namespace: &str, identity: &Identity) -> bool
    ensures { result ≡ meaning.subject_matches subject.now binding_namespace.now identity.now }
{
    match subject {
        Subject::User(name) => identity.user.as_str() == name.as_str(),
        Subject::Group(name) => identity.is_in(name.as_str()),
        Subject::ServiceAccount(account) => is_account(
            identity.user.as_str(),
            account_namespace(account, binding_namespace),
            account.name.as_str(),
        ),
    }
}
