//! The calls of the C library: what a caller passes, read as a question, and what is answered, written if the caller
//! said. A status is no answer: a decision goes out beside it, and 0 denies.
#![tactic(auto)]

mod answering;
mod batch;
mod fault;
mod listing;
mod passed;
mod reading;
mod shared;

pub use answering::Answer;
pub use batch::decide_batch;
pub use fault::CallFault;
pub use passed::{CQuestion, Call, PassedText};
pub use reading::{AccessQuestion, read_question};
pub use shared::{Shared, answer_shared, share};
