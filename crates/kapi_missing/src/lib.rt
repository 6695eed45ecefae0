//! What the holder of some rules lacks of others.
//!
//! A rule, held or wanted earlier, stops an atom exactly if it meets each of the atom's entries. So each entry has its row:
//! the set of rules meeting it. What is left below some chosen entries depends only on the rules meeting them all: all of
//! it if there is no such rule, none of it if one of them meets every entry that may still be chosen. Entries with the
//! same row leave the same: they are counted once, before any atom is made.
#![tactic(auto)]

mod grid;
mod index;
mod missing_atoms;
mod numbers;
mod rows;
mod tree;

pub use missing_atoms::missing;
