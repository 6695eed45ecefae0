//! The replies to refused requests: the refusals, the failure of each, and replies with JSON bodies.
#![tactic(auto)]

mod failure;
pub mod refusal;
pub mod reply;
mod status;
mod tokens;
mod written;

pub use refusal::{
    BadRequestReason, CheckError, NamedRole, Nonexistent, OldRevision, Place, Refusal, Refused,
    Revisions,
};
pub use reply::{
    Content, RefusedRequest, WrittenReply, content_reply, deletion_text, expired_text, fault_reply,
    refusal_reply, refusal_text, target_reply, watch_reply,
};
pub use status::{Subject, atom_list};
