//! Transcripts, played on the machine: the answers of their cases that differ from the expected ones, and why.
#![tactic(auto)]

mod doubts;
mod explained;
mod forms;
mod kinds;
mod manifests;
mod play;
mod played_case;
mod replay;

pub use kapi_transcripts::{
    LoadedFile, NamedFile, Outcome, Transcript, are_sure, are_well, junit_text, loaded_names,
};
pub use replay::{ReplayFault, replay_run};
