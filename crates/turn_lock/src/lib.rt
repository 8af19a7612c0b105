//! A lock round an object of one thread. All calls that are made through it fall in one legal
//! history, and each pass of the lock knows a front of that history and which of its calls are its
//! own.
#![tactic(auto)]

mod calls;
mod closing;
mod history;
mod lock;
mod object;
mod opening;
mod passes;
mod plays;
mod rule;
mod slot;
#[cfg(test)]
mod tests;
mod view;
mod waiting;

pub use history::Entry;
pub use lock::{Locked, Pass, TurnLock};
pub use object::Object;
pub use rule::Turns;
pub use slot::{Held, Note};
pub use view::{Stage, View};
