//! What a case of the rule language comes to, by the public calls of the crates that read rules and judge
//! by them. `transforms::answer(alloc, given, out)` adds the words to `out`; it is the same for each kind.
#![tactic(auto)]

pub mod chains;
pub mod directives;
pub mod limits;
pub mod names;
pub mod operators;
pub mod parts;
mod parts_actions;
pub mod patterns;
mod rule_files;
pub mod rule_lines;
pub mod rules;
mod rules_halves;
mod rules_phases;
mod transactions;
pub mod transforms;
pub mod variables;
mod variables_steps;
