use kapi_model::{ClusterRole, ClusterRoleBinding, Role, RoleBinding};
use kapi_text::Text;

/// The place of an object that lives in a namespace. Places are in order of namespace and name, each by its bytes.
#[derive(PartialEq, Eq, PartialOrd, Ord, Drop)]
pub struct NamespacedName {
    pub namespace: Text,
    pub name: Text,
}

/// A policy object at its place: a role or role binding in a namespace, or a cluster role or cluster role binding of a
/// name.
#[derive(Drop)]
pub enum PolicyPut {
    Role(NamespacedName, Role),
    ClusterRole(Text, ClusterRole),
    RoleBinding(NamespacedName, RoleBinding),
    ClusterRoleBinding(Text, ClusterRoleBinding),
}

/// The place of a policy object.
#[derive(Drop)]
pub enum PolicyKey {
    Role(NamespacedName),
    ClusterRole(Text),
    RoleBinding(NamespacedName),
    ClusterRoleBinding(Text),
}

/// One change of the policy objects.
#[derive(Drop)]
pub enum PolicyChange {
    /// Puts the object at its place, also if there is one.
    Put(PolicyPut),
    /// Removes the object at the place, if there is one.
    Delete(PolicyKey),
}
