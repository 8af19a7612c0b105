//! A judgement that stops after the phases of the request, and goes on later, when the response is there
//! or when none comes any more.
//!
//! `begin(alloc, rules, generation, request, &mut steps)` answers `Begun::Goes` with a `Half`, of which
//! `finish` or `retire` makes the rest. The definitions are `BeginsAs`, `EndsAs` and `RetiresAs` in
//! `specs/Halves.antt`, over `judge` of `sec_meaning`.
#![tactic(auto)]

mod half;
mod in_use;
mod laws;
mod phases;

pub use half::{Begun, Ended, Half, begin, finish, retire};
pub use in_use::RulesInUse;
pub use laws::{
    judgements_come_in_halves, lines_stay_in_front, logging_may_be_empty, requests_stay,
};
