//! Texts and lists as contracts see them, and failed allocations.
#![tactic(auto)]

pub mod digits;
pub mod joined;
pub mod sequence;
pub mod text;

pub use digits::{are_digits, hex_value, number};
pub use joined::is_joined;
pub use sequence::{Sequence, TryCopy};
use std::alloc::AllocError;
pub use text::Text;

/// An allocation fails, and nothing was changed.
pub type Memory = AllocError;
