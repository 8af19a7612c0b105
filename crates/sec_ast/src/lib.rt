//! The rule language as plain data: what a listing of rules holds, in the shape in which it is read,
//! printed and evaluated. Every field is public, and every clone is equal to its original.
//!
//! ```text
//! print_listing(alloc, &listing, &mut out)?;
//! ```
//!
//! appends `listing_text` of `specs/Print.antt` to `out`; the names of variables, operators,
//! transformations and settings are tables of `specs/`.
#![tactic(auto)]

mod action;
mod link;
mod listing;
mod macros;
mod names;
mod operator;
mod print;
mod print_actions;
mod print_macros;
mod print_operators;
mod print_rules;
mod print_targets;
mod print_texts;
mod rule;
mod selector;
mod settings;
mod target;
mod transform;
mod variable;
mod verdict;

pub use action::{Change, Ctl, Disrupt, SetVar};
pub use link::Link;
pub use listing::{Item, Listing};
pub use macros::{Macro, Part};
pub use names::is_among;
pub use operator::{Op, OpKind, operator_of_its_name};
pub use print::print_listing;
pub use rule::{Place, Rule};
pub use selector::Selector;
pub use settings::{Engine, Processor, engine_of_its_name};
pub use target::{Select, Target};
pub use transform::{Transform, transform_of_its_name};
pub use variable::{Var, variable_of_its_name};
pub use verdict::{LogLine, Verdict, VerdictAct};
