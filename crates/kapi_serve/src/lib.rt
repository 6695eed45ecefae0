//! The server: the machine over ports that are read and written without waiting.
//!
//! Whatever the ports do, the loop makes one list of events on the machine, whose state is that of their run, and the
//! desk publishes the steps of their answers in order, all but at most the last. If the ports report what they read
//! and wrote, each byte is accounted for: it goes to and from the client that it belongs to.
#![tactic(auto)]

mod client;
mod clients;
mod listener;
mod marks;
mod pending;
mod places;
mod port;
mod progress;
mod publishing;
mod server;
mod slots;
mod sockets;
mod stream;

pub use port::{Entry, PortEvent, PortFault, Ports};
pub use server::serve_loop;
pub use sockets::Sockets;
