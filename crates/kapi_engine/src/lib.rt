//! Questions to a policy that was loaded: whether somebody may do something and why, what somebody lacks of a role, who
//! may do something, what somebody has, who can gain more, who can become whom, and what another policy gives besides.
//! Nothing here waits, starts a thread or reads a file.
#![tactic(auto)]

mod answers;
mod deciding;
mod line;
mod loaded_policy;
mod manifests;
mod question;

pub use answers::compare;
pub use kapi_access::{Compared, Form, Holder, Identities, LineFault, Scope, ScopedPoint, Shown};
pub use kapi_core::access_reviews;
pub use kapi_loading::StartError;
pub use kapi_reviews::Question;
pub use line::decision_line;
pub use loaded_policy::{LoadedPolicy, load};
pub use manifests::{ManifestsFault, load_manifests};
pub use question::question_of;
