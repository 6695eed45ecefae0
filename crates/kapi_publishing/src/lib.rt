//! Reader threads over published policies: a desk publishes steps of changes, and seats answer questions, each over the
//! policy after some number of the published steps, with no lock and without waiting.
#![tactic(auto)]

mod book;
mod decision;
mod desk;
pub mod laws;
mod rule;
mod seat;
mod version;

pub use decision::{SeatDecision, SeatGrant};
pub use desk::{Desk, PublishError};
pub use seat::{Seat, SeatError, Told};
