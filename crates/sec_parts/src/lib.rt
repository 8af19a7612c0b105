//! The parts of a directive of rules, read from its words: macros, lists of targets, operators and
//! lists of actions. Each answers what it says, or its first fault from the left with the word in
//! which that is.
//!
//! ```text
//! let targets = read_targets(alloc, b"ARGS|!ARGS:token")?;
//! let acts = read_actions(alloc, Stand::First, b"id:5,phase:2,deny")?;
//! ```
//!
//! What they mean is `targets_of` of `specs/Targets.antt`, `operator_of` of `specs/Operators.antt`,
//! `actions_in` of `specs/Acts.antt` and `macro_of` of `specs/Macros.antt`; that each text has one
//! reading is `one_reading_of_targets`, `one_reading_of_actions` and `one_reading_of_a_macro`.
#![tactic(auto)]

mod actions;
mod acts;
mod changes;
mod controls;
mod faults;
mod kinds;
mod limits;
mod macros;
mod numbers;
mod operators;
mod phrases;
mod pieces;
mod targets;
mod texts;
mod variables;

pub use acts::{Acts, one_reading_of_actions, read_actions};
pub use controls::{read_id_range, read_identifier, read_switch};
pub use faults::{Bad, Flaw, Refusal};
pub use kinds::Stand;
pub use macros::{one_reading_of_a_macro, read_macro};
pub use numbers::read_number;
pub use operators::{Operator, read_operator};
pub use phrases::one_reading_of_words;
pub use targets::{one_reading_of_targets, read_targets};
