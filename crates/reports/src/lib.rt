//! What a command writes besides its results: the line of a fault, and the status that it ends with.
//!
//! ```text
//! Err(fault) => match command_fault(alloc, name, fault) {
//!     CommandFault::Line(line) => report(output, line.as_slice(), REFUSED),
//!     ..
//! },
//! ```
//!
//! What the line of a fault is stands in `specs/FaultLines.antt`.
#![tactic(auto)]

pub mod exit_status;
mod faults;
mod lines;
mod writing;

pub use faults::{CommandFault, command_fault};
pub use lines::fault_line;
pub use writing::report;
