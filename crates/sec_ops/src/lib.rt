//! The operators of rules: built once, and asked of many values.
//!
//! `holds(&build(alloc, &op)?, argument, value)` answers whether a value has a hit, and the texts of its
//! groups. The definition is `hit` in `specs/Hits.antt`.
#![tactic(auto)]

mod askers;
mod built;
mod characters;
mod escapes;
mod gates;
mod laws;
mod numbers;
mod pattern;
mod phrases;
mod ranges;
mod searches;
mod selectors;

pub use askers::Asker;
pub use built::{BuildFault, Built, Hit, build, holds};
pub use laws::phrases_end_first;
pub use numbers::number;
pub use selectors::NamePattern;
