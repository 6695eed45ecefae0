//! Role-based access control: the policy objects, which requests they allow, and the rules that an identity holds.
#![tactic(auto)]

mod binding;
mod change;
mod copies;
mod decision;
pub mod laws;
mod policy;
mod step;

pub use binding::Binding;
pub use change::{NamespacedName, PolicyChange, PolicyKey, PolicyPut};
pub use copies::copy_map;
pub use decision::{BindingKind, Decision, Grant};
pub use policy::Policy;
pub use step::PolicyStep;
