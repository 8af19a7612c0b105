//! Several connections over one list of applications and one table of transactions, step by step.
//!
//! ```text
//! let mut world = World::<Halves>::new(alloc, Halves {}, size, shards, capacity, apps)?;
//! world.step(Step::Open(1))?;
//! world.step(Step::Feed(1, bytes))?;
//! while world.needs(1) != Need::Bytes {
//!     let seen = world.step(Step::Act(1))?;
//! }
//! ```
//!
//! Which steps there are is `Step`; what each does and shows is `Steps` in `specs/Steps.antt`, whatever
//! judges: `Halves`, or the plain and slow `Slowly`. When the connections stand for a state of that
//! definition is `StandsFor` in `specs/Standing.antt`.
#![tactic(auto)]

mod act;
mod begun;
mod halves;
mod host;
mod judge;
mod judged;
mod laws;
mod opening;
mod peers;
mod rules;
mod shards;
mod slowly;
mod step;
mod tables;
mod turns;
mod world;

pub use begun::JudgeBegun;
pub use halves::Halves;
pub use judge::Judge;
pub use laws::{outputs_are_of_needs, runs_keep_apart, tickets_stay_with_rows};
pub use rules::Handle;
pub use slowly::Slowly;
pub use step::Step;
pub use world::World;
