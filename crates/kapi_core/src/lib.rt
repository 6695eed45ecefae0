//! The machine: events in, answers out.
#![tactic(auto)]

mod connection;
mod connections;
mod event;
mod fingerprint;
pub mod laws;
mod machine;
mod opening;
mod programs;
mod resource;
mod run;
mod table;
mod write;

pub use event::{Answer, ConnId, Event, OpenError, Output, Outputs, Turned};
pub use kapi_answer::LoadError;
pub use machine::{Core, LAST_CONNECTION, OPEN_CONNECTIONS};
pub use opening::LAST_FIRST;
pub use programs::program_table;
pub use resource::{Resource, access_reviews, required_resources};
pub use table::table_fits;
