//! Cluster roles that take their rules from others: the rules that they take, and which roles differ from them
//! (Kubernetes, 'Using RBAC Authorization', 'Aggregated ClusterRoles').
#![tactic(auto)]

pub mod laws;
mod roles;
mod same;
mod takers;
mod tracker;
mod turn;
mod union;

pub use roles::{ClusterRoles, is_cluster_role};
pub use same::same_rules;
pub use tracker::Tracker;
pub use turn::{Turn, rewrite};
pub use union::union_of;
