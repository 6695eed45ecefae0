ghost use Rattle.std.specs.Prelude.{◌≡◌, IfOk};
ghost use Rattle.kapi_escalation.specs.Kind as kind;

use kapi_policy::NamespacedName;
use kapi_store::Key;
use kapi_text::{Memory, TryCopy};
use std::alloc::Global;

/// The four kinds of policy objects (Kubernetes API, rbac.authorization.k8s.io/v1).
#[derive(Clone, Copy, PartialEq, Eq)]
pub enum PolicyKind {
    Role,
    RoleBinding,
    ClusterRole,
    ClusterRoleBinding,
}

/// The kind of the policy object at a key, if the key is the place of one.
#[tactic(auto, unfolding(crate::specs::Kind::policy_kind))]
pub fn policy_kind(key: &Key) -> Option<PolicyKind>
    ensures { result ≡ kind.policy_kind key.now }
{
    if key.group.as_str() != "rbac.authorization.k8s.io" {
        return None;
    }
    match key.resource.as_str() {
        "roles" => Some(PolicyKind::Role),
        "rolebindings" => Some(PolicyKind::RoleBinding),
        _other => cluster_kind(key),
    }
}

/// The kind of a key whose objects are in no namespace.
fn cluster_kind(key: &Key) -> Option<PolicyKind>
    ensures { result ≡ kind.cluster_kind key.now }
{
    if !key.namespace.as_str().is_empty() {
        return None;
    }
    match key.resource.as_str() {
        "clusterroles" => Some(PolicyKind::ClusterRole),
        "clusterrolebindings" => Some(PolicyKind::ClusterRoleBinding),
        _other => None,
    }
}

/// The namespace and the name of a key.
pub fn place_of(alloc: Global, key: &Key) -> Result<NamespacedName, Memory>
    ensures { IfOk result (λ p. p ≡ kind.place_of key.now) }
{
    Ok(NamespacedName {
        namespace: key.namespace.copy(alloc)?,
        name: key.name.copy(alloc)?,
    })
}
