//! The command line of the programs: what its words ask for, and what is wrong with words that ask for nothing.
#![tactic(auto)]

mod arguments;
mod command_line;
mod numbers;
mod program;
mod wrong_words;

pub use command_line::command;
pub use numbers::clock_revision;
pub use program::{
    Asking, AuditFiles, Command, CommandFault, CompareWords, Listen, PathsWords, Reading,
    ReplayOptions, ServeOptions, SuggestWords, WhatWords, WhoQuestion, WhoWanted, WhoWords,
};
pub use wrong_words::complaint;
