//! Values of the definitions that a reader can work out by hand.
#![tactic(auto)]

pub mod laws;
