//! A count of publishes that readers load without a lock. Whoever publishes holds a tally, which
//! knows how many of the publishes are its own.
//!
//! ```text
//! let (count, mut tally) = PublishCount::new(alloc)?;
//! count.add(&mut tally);
//! let generation = count.glance(&mut tally);
//! ```
//!
//! The rule that the word and all tallies keep is `Counted` in `specs/Rule.antt`.
#![tactic(auto)]

mod calls;
mod count;
mod opening;
mod plays;
mod tallies;
#[cfg(test)]
mod tests;
mod view;

pub use count::{Counting, PublishCount, Tally};
