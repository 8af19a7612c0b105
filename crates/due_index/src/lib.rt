//! The deadlines of a table's rows: each place of the table may hold a deadline with its ticket, and
//! what is due first is found without a scan. All memory is taken when the index is made.
//!
//! ```text
//! let mut index = DueIndex::new(alloc, 16384)?;
//! index.add(deadline, ticket, place);
//! if let Some((deadline, ticket, place)) = index.least() {
//!     index.remove(place);
//! }
//! ```
//!
//! `specs/Due.antt` says what the places hold, and which entry is the least.
#![tactic(auto)]

mod index;
mod laws;
mod order;
mod tree;

pub use index::DueIndex;
pub use laws::least_is_one;

/// A deadline, its ticket, and the place of its row.
pub type Due = (u64, u64, u32);
