//! Scripts: a text's lines as events, and the lines of their answers.
#![tactic(auto)]

pub mod laws;
mod line;
mod script;

pub use script::{ScriptFault, play_script, script_run};
