//! Patterns as PCRE reads them, worded for the crate `regex`, on bytes.
//!
//! `word_pattern(alloc, b"\\h{2")` answers `(?sm-u)[\x09\x20]\x7B2`, which `regex::bytes` reads with
//! the meaning that PCRE gives to `\h{2`. The definition is `worded` in `specs/Wording.antt`.
#![tactic(auto)]

mod characters;
mod classes;
mod escapes;
mod fronts;
mod outside;
mod place;
mod token;
mod wording;

pub use wording::{WordFault, word_pattern};
