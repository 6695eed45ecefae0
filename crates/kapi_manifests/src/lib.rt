//! Manifests: files of objects as people have them, made into the lines that a machine loads.
#![tactic(auto)]

mod cut;
mod dangling;
mod default_objects;
mod defaults;
mod fault;
mod kinds;
mod list;
mod namespaces;
mod placing;
mod prepared;
mod reader_state;
mod reading;
mod sorted;
mod words;

pub use dangling::Dangling;
pub use fault::{Fault, Origin, Reason};
pub use kinds::text_at;
pub use prepared::{Prepared, prepare};
pub use reading::{Objects, read_objects};
pub use sorted::{Manifest, Options, Selection};
pub use words::Words;
