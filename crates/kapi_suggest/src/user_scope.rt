//! Who used something, and where.
use kapi_text::{Text, TryCopy};
use std::alloc::{AllocError, Global};

/// A user, and the namespace in which something counts for it, empty where it counts everywhere. Places are in the order of users.
#[derive(PartialEq, Eq, PartialOrd, Ord, Drop)]
pub struct UserScope {
    pub user: Text,
    pub namespace: Text,
}

impl TryCopy for UserScope {
    fn copy(&self, alloc: Global) -> Result<UserScope, AllocError> {
        Ok(UserScope {
            user: self.user.copy(alloc)?,
            namespace: self.namespace.copy(alloc)?,
        })
    }
}
