use kapi_text::{Text, TryCopy};
use std::alloc::{AllocError, Global};

/// What the body of an object of a resource type must be.
#[derive(Clone, Copy, PartialEq, Eq)]
pub enum Schema {
    /// Any members beside the metadata.
    Open,
    /// The members of the kind of this name (Kubernetes API, rbac.authorization.k8s.io/v1); so with the kinds below.
    Role,
    ClusterRole,
    RoleBinding,
    ClusterRoleBinding,
}

/// A resource type that is served, as a line of Kubernetes' `kubectl api-resources`.
#[derive(Drop)]
pub struct ResourceRow {
    /// The API group, empty for the core group.
    pub group: Text,
    pub version: Text,
    /// The resource's name in paths, in the plural.
    pub plural: Text,
    pub kind: Text,
    /// Whether the objects of the resource type live in namespaces.
    pub namespaced: bool,
    /// Whether the resource type has the subresource `status`.
    pub has_status: bool,
    pub schema: Schema,
}

impl TryCopy for ResourceRow {
    fn copy(&self, alloc: Global) -> Result<ResourceRow, AllocError> {
        Ok(ResourceRow {
            group: self.group.copy(alloc)?,
            version: self.version.copy(alloc)?,
            plural: self.plural.copy(alloc)?,
            kind: self.kind.copy(alloc)?,
            namespaced: self.namespaced,
            has_status: self.has_status,
            schema: self.schema,
        })
    }
}
