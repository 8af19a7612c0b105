//! What a running agent does for the lines of its input: it loads its configuration anew, counts the rows of its table,
//! or stops.
//!
//! ```text
//! match control(rt, alloc, name, &mut files, &mut input, &mut output, &desk, &mut desk_pass, &rules, &mut rules_pass) {
//!     ControlEnd::Stopped => ..,
//! }
//! ```
//!
//! What an order comes to, and what is printed of it, stands in `specs/Turns.antt`; what the loop did when it is over is
//! `Controlled` in `specs/Controlled.antt`.
#![tactic(auto)]

mod counting;
mod obeying;
mod parts;
mod reloading;

pub use obeying::{ControlEnd, control};
