use crate::selector::Selector;
use kapi_text::{Sequence, TryCopy};
use std::alloc::{AllocError, Global};

/// Selects the cluster roles that an aggregated one takes its rules from: those that one of the selectors matches
/// (Kubernetes API, `AggregationRule` of rbac.authorization.k8s.io/v1).
#[derive(Drop)]
pub struct AggregationRule {
    pub cluster_role_selectors: Sequence<Selector>,
}

impl TryCopy for AggregationRule {
    fn copy(&self, alloc: Global) -> Result<AggregationRule, AllocError> {
        Ok(AggregationRule {
            cluster_role_selectors: self.cluster_role_selectors.copy(alloc)?,
        })
    }
}
