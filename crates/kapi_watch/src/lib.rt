//! Watches: what the changes of a store show to a watch of some of its objects.
#![tactic(auto)]

pub mod error;
pub mod event;
mod laws;
pub mod scope;
mod text;
pub mod watch;

pub use error::WatchError;
pub use event::{Event, Removed};
pub use laws::{
    a_store_writes_a_history, a_watch_begins, nothing_is_shown_twice_or_left_out,
    the_lists_are_those_of_the_store, what_a_watch_shows_makes_the_list,
    writes_leave_what_a_watch_stands_for,
};
pub use scope::WatchScope;
pub use text::event_text;
pub use watch::{Cursor, Next, Watch};
