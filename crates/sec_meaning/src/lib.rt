//! The meaning of rules: what a transaction comes to, as a definition, and slow functions that follow it
//! to the letter.
//!
//! `plain_judge(alloc, &listing, &request, None)` answers the verdict on a request and its log lines. The
//! definitions are `judge` in `specs/Judgement.antt` and `phase` in `specs/Phase.antt`.
#![tactic(auto)]

mod actions;
mod effect;
mod judge;
mod links;
mod matching;
mod patterns;
mod phase;
pub mod phase_number;
mod plain;
mod state;
mod status;
mod text;
mod transaction;
mod values;

pub use actions::{act, act_on_each};
pub use effect::{is_on, matched_effect};
pub use judge::plain_judge;
pub use phase::{at_marker, is_named_by, is_off, plain_phase, too_large};
pub use sec_compile::CompileFault as PlainFault;
pub use state::{After, Found, Judged, Matched, Passing, PlainState, Removed, RuleFlow};
pub use text::Text;
pub use transaction::Transaction;
