//! Declared objects: which bodies are objects of a resource type, their trees and their parts, and merge patches.
#![tactic(auto)]

mod admission;
pub mod body_fields;
pub mod contents;
mod merge;
mod metadata;
pub mod object;
pub mod object_error;
mod path;
pub mod rules_form;
pub mod selector_form;
pub mod subjects_form;
pub mod table;
pub mod table_faults;
pub mod text_rule;
pub mod tree;
pub mod tree_form;
pub mod typed_list;
pub mod word;

pub use admission::{admit_tree, admitted_tree, collect_faults, read_object, read_tree};
pub use body_fields::{Given, GivenText};
pub use merge::merge_patch;
pub use metadata::push_fault;
pub use object::Object;
pub use object_error::ObjectError;
pub use tree::member;
