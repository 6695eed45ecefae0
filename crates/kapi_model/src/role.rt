use crate::aggregation_rule::AggregationRule;
use crate::policy_rule::PolicyRule;
use kapi_text::Sequence;

/// What is allowed in a namespace (Kubernetes API, `Role` of rbac.authorization.k8s.io/v1).
#[derive(Drop)]
pub struct Role {
    pub rules: Sequence<PolicyRule>,
}

/// What is allowed in a namespace or cluster-wide, as it is bound (Kubernetes API, `ClusterRole` of
/// rbac.authorization.k8s.io/v1).
#[derive(Drop)]
pub struct ClusterRole {
    pub aggregation_rule: Option<AggregationRule>,
    pub rules: Sequence<PolicyRule>,
}
