//! Audits: a policy as a file of objects, questions as a file of reviews, and the answers of reader threads. Also the
//! questions of a client, answered from a seat while a desk goes on publishing.
#![tactic(auto)]

mod answer_text;
mod answering;
mod audit;
mod fault;
mod gate;
mod gathering;
mod reader;
mod report;
mod threads;

pub use answering::answer_run;
pub use audit::{Audited, READERS, audit_alone, audit_run};
pub use fault::{AnswerFault, AuditFault};
pub use gate::{Gate, NoGate};
