//! Sets of addresses, as rules name them.
//!
//! ```text
//! let set = IpSet::read(alloc, &words)?;
//! let is_in = set.contains(b"192.0.2.7");
//! ```
//!
//! What a word names is `block_of` of `specs/Membership.antt`, for the reader of rules, the operator
//! and the set alike; what it comes to in the standards' terms is `IsWord` of `specs/Blocks.antt`.
#![tactic(auto)]

mod block;
mod characters;
mod set;

pub use block::{Block, block_of_a_word};
pub use set::{IpFault, IpSet};
