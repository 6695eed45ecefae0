//! The typed values of the server: names, labels, selectors, resource types, roles, bindings, subjects and identities.
//! They depend neither on objects nor on JSON.
#![tactic(auto)]

pub mod aggregation_rule;
pub mod binding;
pub mod fault;
pub mod identity;
pub mod kinds;
pub mod labels;
mod lookup;
mod matching;
pub mod names;
pub mod policy_rule;
pub mod role;
pub mod role_ref;
pub mod row;
pub mod selector;
pub mod selector_error;
mod selector_text;
mod selector_token;
mod selector_tokens;
pub mod subject;

pub use aggregation_rule::AggregationRule;
pub use binding::{ClusterRoleBinding, RoleBinding};
pub use fault::{FaultKind, FieldFault};
pub use identity::Identity;
pub use kinds::{RBAC_GROUP, RoleKind, SubjectKind};
pub use labels::Labels;
pub use matching::{account_namespace, account_user, subject_matches};
pub use names::{
    check_label_key, check_label_value, check_name, check_namespace_name, check_object_name,
    check_rbac_name,
};
pub use policy_rule::PolicyRule;
pub use role::{ClusterRole, Role};
pub use role_ref::RoleRef;
pub use row::{ResourceRow, Schema};
pub use selector::{Label, Operator, Requirement, Selector};
pub use selector_error::SelectorError;
pub use subject::{ServiceAccount, Subject};
