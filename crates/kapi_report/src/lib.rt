//! Rows as they are printed: in columns, in Markdown, or as JSON objects.
#![tactic(auto)]

mod columns;
mod markdown;
mod rows;

pub use rows::{Row, Words, escape, report};
