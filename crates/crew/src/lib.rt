//! A crew that serves doors side by side, each member at a door of its own.
//!
//! `serve_all(rt, &shift, first, doors, members)` runs the k-th member at the k-th door, all at once where the machine
//! gives threads, and returns when all have done. What a member does at its door is a `Shift`. That each did it
//! at its own door and at no other stands in `specs/Served.antt`.
#![tactic(auto)]

mod run;
mod shift;
#[cfg(test)]
mod tests;

pub use run::serve_all;
pub use shift::Shift;
