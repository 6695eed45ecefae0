//! The commands that ask about the policies of files: `kapi compare`, `kapi who`, `kapi what`, `kapi risks`,
//! `kapi paths`, `kapi check`, `kapi suggest` and `kapi audit --log`.
#![tactic(auto)]

mod asking;
mod checking;
mod doubts;
mod logging;
mod policies;
mod rows;
mod served;
mod suggesting;

pub use asking::{doubts_of, run_compare, run_paths, run_risks, run_what, run_who, tell_unsettled};
pub use checking::run_check;
pub use doubts::Doubts;
pub use logging::audit_log;
pub use suggesting::run_suggest;
