//! The list of applications that is in force, shared by threads: one lock, and passes that know its
//! history.
//!
//! ```text
//! let (shelf, mut pass) = SharedShelf::new(alloc, apps)?;
//! let Look::Found { rules, generation, .. } = shelf.look(rt, &mut pass, name) else { .. };
//! let Published::Generation(next) = shelf.publish(rt, &mut pass, others) else { .. };
//! ```
//!
//! What a pass knows is `IsPassOfShelf` in `specs/Passes.antt`, and what it knows after a call is
//! `Turned` beside it.
#![tactic(auto)]

mod calls;
mod make;
mod opening;
mod passes;
mod replies;
mod shared;
#[cfg(test)]
mod tests;

pub use shared::{Guarded, SharedShelf, ShelfPass};
