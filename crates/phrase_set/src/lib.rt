//! Sets of phrases: which of them ends first in a text.
//!
//! `PhraseSet::build(alloc, &phrases)?.find(value)` answers where the occurrence stands that ends first,
//! the longest among those. The definition is `IsFirstEnd` in `specs/Phrases.antt`.
#![tactic(auto)]

mod joint;
mod one_by_one;
mod part;
mod set;

pub use one_by_one::place;
pub use set::PhraseSet;
