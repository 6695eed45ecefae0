//! The objects of a server as one finite map, with one revision counter and a window of the last changes.
#![tactic(auto)]

pub mod change;
mod cut;
pub mod error;
pub mod key;
mod labels;
pub mod listing;
pub mod matcher;
mod namespaces;
pub mod ready;
mod rows;
mod slots;
pub mod store;
pub mod stored;
mod uid_and_version;
pub mod window;
mod worked;
mod written;

pub use change::{Change, Shared};
pub use error::{StoreError, TooOld};
pub use key::Key;
pub use listing::{Listed, is_asked};
pub use matcher::Matcher;
pub use ready::Ready;
pub use store::{LAST_REVISION, Store};
pub use stored::StoredObject;
pub use window::{Changes, WINDOW};
pub use worked::worked_rows;
