use crate::role_ref::RoleRef;
use crate::subject::Subject;
use kapi_text::{Sequence, TryCopy};
use std::alloc::{AllocError, Global};

/// Grants the subjects what a role allows, in the binding's namespace (Kubernetes API, `RoleBinding` of
/// rbac.authorization.k8s.io/v1).
#[derive(Drop)]
pub struct RoleBinding {
    pub subjects: Sequence<Subject>,
    pub role_ref: RoleRef,
}

/// Grants the subjects what a cluster role allows, cluster-wide (Kubernetes API, `ClusterRoleBinding` of
/// rbac.authorization.k8s.io/v1).
#[derive(Drop)]
pub struct ClusterRoleBinding {
    pub subjects: Sequence<Subject>,
    pub role_ref: RoleRef,
}

impl TryCopy for RoleBinding {
    fn copy(&self, alloc: Global) -> Result<RoleBinding, AllocError> {
        Ok(RoleBinding {
            subjects: self.subjects.copy(alloc)?,
            role_ref: self.role_ref.copy(alloc)?,
        })
    }
}
