//! The agent that serves: its workers at their doors, and the lines of its input beside them.
//!
//! `serve_on(rt, alloc, name, &mut files, &mut input, &mut output, &mut doors, listen, &mut crew, ..)` opens a door
//! for each member of the crew, and ends when `stop` was read, or a fault of input or output came, and each member
//! has served what was open. What was done then is `ServedOn` in `specs/ServedOn.antt`.
#![tactic(auto)]

mod member;
mod opening;
mod serving;
mod station;

pub use member::{Member, Place};
pub use opening::{Agent, open};
pub use serving::serve_on;
