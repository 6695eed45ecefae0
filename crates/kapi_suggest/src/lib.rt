//! The least roles for what was used: what a file of questions or a cluster's audit log shows, as roles and bindings; and what of a
//! policy nobody used.
#![tactic(auto)]

mod event;
mod idle;
pub mod laws;
mod needs;
mod printed;
mod suggested;
mod used;
mod user_scope;

pub use event::{Shown, read_event, read_events};
pub use idle::{Unused, allowed_uses, unused_rules};
pub use needs::suggest;
pub use printed::{list, manifests};
pub use suggested::Suggested;
pub use user_scope::UserScope;
