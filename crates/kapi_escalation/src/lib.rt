//! The check against escalation: no identity writes rules, or binds a role with rules, that it does not hold
//! (Kubernetes, 'Using RBAC Authorization', 'Privilege escalation prevention and bootstrapping'). Also the check of
//! impersonation: no identity acts as another that it may not impersonate (Kubernetes, 'Authenticating', 'User
//! impersonation'). And the policy of the stored objects: which of them are roles and bindings, and what a write changes
//! in the policy.
#![tactic(auto)]

mod change;
mod check;
mod exemption;
mod impersonation;
mod impersonation_refused;
mod kind;
pub mod laws;
mod question;
mod refused;
mod service_account;
pub mod stored_laws;
mod write;
mod written;

pub use change::policy_changes;
pub use check::check_write;
pub use exemption::plural;
pub use impersonation::{check_impersonation, own_groups};
pub use impersonation_refused::ImpersonationRefused;
pub use kind::{PolicyKind, policy_kind};
pub use question::{Question, questions};
pub use refused::Refused;
pub use write::{PolicyWrite, Versions, WrittenObject};
pub use written::written_at;
