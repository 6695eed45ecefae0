//! From a request to its answer: as whom it is made, its route, the checks in their order, a file for each kind of action, and
//! the writes of the answers.
#![tactic(auto)]

mod authorization;
mod collection;
pub mod create;
pub mod delete;
mod escalation;
mod escalation_refusal;
pub mod headers;
mod impersonation;
mod kept_watch;
pub mod laws;
mod list_text;
pub mod loading;
mod plan;
mod prepared;
pub mod query;
mod respond;
pub mod response;
mod review;
pub mod route;
pub mod task;
mod update;
pub mod watch;

pub use authorization::authorize;
pub use headers::check_media_type;
pub use impersonation::impersonate;
pub use kapi_reply::WrittenReply;
pub use kept_watch::KeptWatch;
pub use loading::{LoadError, load};
pub use plan::plan_for;
pub use prepared::Prepared;
pub use query::{Filter, check_query};
pub use respond::answer;
pub use response::{Passed, Plan, Response};
pub use route::{Action, ObjectPart, ResourceRoute, Route, find_route, is_review_group};
pub use update::replace;
pub use watch::{After, EventReply, Watching, event_reply, recheck};
