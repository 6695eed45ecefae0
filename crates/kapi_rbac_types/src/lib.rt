//! Roles and bindings, read from objects and written as objects.
#![tactic(auto)]

mod binding_form;
mod read_fault;
mod role_form;

pub use binding_form::{
    admitted_cluster_role_binding, admitted_role_binding, cluster_role_binding_object,
    read_cluster_role_binding, read_role_binding, role_binding_object,
};
pub use kapi_model::{
    AggregationRule, ClusterRole, ClusterRoleBinding, Identity, PolicyRule, Role, RoleBinding,
    RoleKind, RoleRef, Selector, ServiceAccount, Subject,
};
pub use read_fault::ReadFault;
pub use role_form::{
    admitted_cluster_role, admitted_role, cluster_role, cluster_role_object, read_cluster_role,
    read_role, role_object,
};
