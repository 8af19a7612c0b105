//! The loop over the needs of one connection: its input piece by piece, what it writes, and a host that answers what
//! it asks for.
//!
//! `serve(alloc, size, &mut host, &mut input, &mut output)` serves a connection up to its end. What the host does for
//! it is `Answered` in `specs/Answered.antt`; what was done when it is over is `Serves` in `specs/Ends.antt`.
#![tactic(auto)]

mod connection;
mod host;
mod needs;

pub use connection::{ConnEnd, serve};
pub use host::Host;
pub use needs::act;
