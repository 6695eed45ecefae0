//! Kinds: files of kinds, made into a table of the resource types that are served.
#![tactic(auto)]

mod fault;
mod forms;
mod kubernetes;
mod members;
mod named;
mod table;

pub use fault::{Fault, Reason};
pub use kubernetes::kubernetes_kinds;
pub use table::{Kinds, table_of};
