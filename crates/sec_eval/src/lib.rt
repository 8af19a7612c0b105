//! Runs a phase of rules over the state of a transaction, which it changes in place.
//!
//! `run_phase(alloc, &mut askers, phase_number::LOGGING, &mut state, &mut steps)` runs the last phase by
//! the rule set of `Askers::new(alloc, &rules)`. The definition is `phase` of `sec_meaning`: contracts
//! see a `State` as that definition's own state, and `Askers` as their rule set.
#![tactic(auto)]

mod askers;
mod effect;
mod laws;
mod links;
mod matching;
mod phase;
mod search;
mod state;
mod text;

pub use askers::Askers;
pub use laws::{markers_lead_behind_them, skips_count_rules_of_the_phase};
pub use phase::{Flow, run_phase};
pub use state::State;
