//! How commands read files and policies of files, how they print answers and report faults, and how they end.
#![tactic(auto)]

mod ending;
mod kinds;
mod manifests;
mod sources;
mod stderr;
mod system_reason;

pub use ending::Ending;
pub use kinds::{KUBERNETES, read_kinds};
pub use manifests::{
    ReadPolicy, place_of, read_policy, read_policy_of, read_served, tell_refused, tell_unloaded,
};
pub use sources::read_texts;
pub use stderr::{Plain, print, read_file, tell_reason, tell_stopped, tell_unread};
pub use system_reason::Reason;
