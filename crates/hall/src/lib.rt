//! The table of transactions, shared by threads: one lock for each shard, and passes that know the
//! history of each.
//!
//! ```text
//! let (hall, mut pass) = SharedHall::new(alloc, 1, 1000)?;
//! let Entry::Entered(ticket) = hall.enter(rt, &mut pass, key) else { .. };
//! hall.park(rt, &mut pass, ticket, deadline, half);
//! ```
//!
//! What a pass knows is `IsPassOfHall` in `specs/Passes.antt`, and what it knows after a call is
//! `Turned` beside it.
#![tactic(auto)]

mod calls;
mod laws;
mod make;
mod opening;
mod passes;
mod replies;
mod shared;
#[cfg(test)]
mod tests;

pub use laws::claimed_at_most_once;
pub use shared::{HallPass, Seats, Shards, SharedHall};
