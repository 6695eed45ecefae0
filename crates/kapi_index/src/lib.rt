//! A policy whose decisions do not grow with the number of bindings: they are found by user, group and service account. Its
//! rules are prepared, so that a long role is checked fast.
#![tactic(auto)]

mod all;
mod asker;
mod compiled_rule;
mod held_once;
mod indexed;
mod key_list;
mod keys;
mod marks;
mod name_tree;
mod names;
mod prepared_point;
mod roles;
mod rules;
mod scope;
mod sets;
mod spaces;
mod urls;
mod walk;
mod words;

pub use indexed::IndexedPolicy;
pub use prepared_point::{PreparedPoint, ask};
pub use rules::CompiledRules;
