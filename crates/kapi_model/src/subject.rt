use kapi_text::{Text, TryCopy};
use std::alloc::{AllocError, Global};

/// A service account; its namespace is empty if none is given.
#[derive(Drop)]
pub struct ServiceAccount {
    pub namespace: Text,
    pub name: Text,
}

/// A user, a group or a service account that a binding grants a role (Kubernetes API, `Subject` of
/// rbac.authorization.k8s.io/v1).
#[derive(Drop)]
pub enum Subject {
    User(Text),
    Group(Text),
    ServiceAccount(ServiceAccount),
}

impl TryCopy for ServiceAccount {
    fn copy(&self, alloc: Global) -> Result<ServiceAccount, AllocError> {
        Ok(ServiceAccount {
            namespace: self.namespace.copy(alloc)?,
            name: self.name.copy(alloc)?,
        })
    }
}

impl TryCopy for Subject {
    fn copy(&self, alloc: Global) -> Result<Subject, AllocError> {
        match self {
            Subject::User(name) => Ok(Subject::User(name.copy(alloc)?)),
            Subject::Group(name) => Ok(Subject::Group(name.copy(alloc)?)),
            Subject::ServiceAccount(account) => Ok(Subject::ServiceAccount(account.copy(alloc)?)),
        }
    }
}
