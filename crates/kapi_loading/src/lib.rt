//! A file of objects, loaded into a machine, and a desk that publishes its policy; and why a line is refused.
#![tactic(auto)]

mod fault;
mod laws;
mod loading;
mod questions;
mod reasons;
mod settled;
mod shown;
mod starting;

pub use fault::StartError;
pub use laws::a_file_makes_a_machine_of_the_laws;
pub use questions::question_reason;
pub use reasons::{LineReason, line_reasons, object_reason};
pub use settled::is_settled;
pub use shown::one_line;
pub use starting::{Started, load_policy, start, start_policy, start_without_objects};
