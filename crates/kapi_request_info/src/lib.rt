//! The attributes of a request, from its method and target, and the impersonation that its header fields ask for.
#![tactic(auto)]

pub mod attributes;
pub mod headers;
pub mod impersonated;
mod laws;
mod path;
pub mod query;
mod resource;
pub mod selector;
mod target;
mod worked;

pub use attributes::{Attributes, InfoError, info};
pub use headers::{impersonation, is_named};
pub use impersonated::{Impersonation, ImpersonationError};
pub use laws::{authorities_mean_nothing, written_paths_are_read};
pub use query::{QueryPair, query_value};
pub use selector::{behind, selected_name};
pub use worked::worked_rows;
