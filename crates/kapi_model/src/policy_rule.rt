use kapi_text::{Sequence, Text, TryCopy};
use std::alloc::{AllocError, Global};

/// A rule of a role: what it allows, entry by entry (Kubernetes API, `PolicyRule` of rbac.authorization.k8s.io/v1).
#[derive(Drop)]
pub struct PolicyRule {
    pub verbs: Sequence<Text>,
    pub api_groups: Sequence<Text>,
    pub resources: Sequence<Text>,
    pub resource_names: Sequence<Text>,
    pub non_resource_urls: Sequence<Text>,
}

impl TryCopy for PolicyRule {
    fn copy(&self, alloc: Global) -> Result<PolicyRule, AllocError> {
        Ok(PolicyRule {
            verbs: self.verbs.copy(alloc)?,
            api_groups: self.api_groups.copy(alloc)?,
            resources: self.resources.copy(alloc)?,
            resource_names: self.resource_names.copy(alloc)?,
            non_resource_urls: self.non_resource_urls.copy(alloc)?,
        })
    }
}
