//! The lines of a text, and the escapes in which a script writes bytes.
#![tactic(auto)]

mod escape;
mod form;
mod identity;
mod items;
mod line;
mod text;

pub use escape::{is_escaped, unescape, write_escaped};
pub use form::Form;
pub use identity::read_identity;
pub use items::{copy_of, nth};
pub use line::{Line, numbered_lines, split_lines};
pub use text::as_text;
