//! Who can become whom under a policy (Kubernetes, 'Role Based Access Control Good Practices', 'Privilege escalation risks').
#![tactic(auto)]

mod bound;
mod gathered;
mod graph;
pub mod laws;
mod node;
mod path;
mod printed;
mod right;
mod search;
mod steps;

pub use bound::Bound;
pub use gathered::known_of;
pub use node::{Node, NodeKind};
pub use path::{Path, paths};
pub use printed::answer_paths;
pub use right::{Leads, Names, Right, is_kind, rights_without};
pub use search::Search;
pub use steps::{Known, Question, next};
