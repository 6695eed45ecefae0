//! Laws of servers whose ports are recorded: what their clients sent and got is accounted for.
//!
//! What `serve_loop` promises of each byte it promises of ports that report their history. These do, whatever the ports
//! below them are. No program has them.
#![tactic(auto)]

mod recorded;

pub use recorded::{Record, Recorded, serve_recorded};
