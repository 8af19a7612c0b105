//! A rule set: a listing whose operators and name patterns are built once, before any request.
//!
//! `compile(alloc, listing)` answers a `Ruleset`, or the place and identifier of the first rule with a
//! pattern that has no reading. The definition is `first_fault` in `specs/Unread.antt`; contracts see a
//! `Ruleset` as its listing.
#![tactic(auto)]

mod fault;
mod links;
mod ruleset;

pub use fault::CompileFault;
pub use links::{BuiltLink, build_items};
pub use ruleset::{Ruleset, compile};
