//! Reviews: whether an identity may do something, and by which rule; and the rules that the caller holds (Kubernetes
//! API, authorization.k8s.io/v1).
#![tactic(auto)]

mod answer;
mod attributes;
mod faults;
mod kind;
pub mod laws;
mod question;
mod reasons;
mod review_error;
mod reviewed;
mod rules;

pub use kind::ReviewKind;
pub use question::Question;
pub use reasons::reason;
pub use review_error::ReviewError;
pub use reviewed::{read_review, review};
