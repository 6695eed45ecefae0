use crate::kinds::RoleKind;
use kapi_text::{Text, TryCopy};
use std::alloc::{AllocError, Global};

/// The role that a binding refers to (Kubernetes API, `RoleRef` of rbac.authorization.k8s.io/v1).
#[derive(Drop)]
pub struct RoleRef {
    pub kind: RoleKind,
    pub name: Text,
}

impl TryCopy for RoleRef {
    fn copy(&self, alloc: Global) -> Result<RoleRef, AllocError> {
        Ok(RoleRef {
            kind: self.kind,
            name: self.name.copy(alloc)?,
        })
    }
}
