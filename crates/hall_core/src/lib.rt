//! The table of transactions: one shard of it, as an object of one thread. A request whose response
//! is to be judged too enters under its key and gets a ticket. It runs until it is parked or leaves,
//! and what is parked is claimed by the response or by the deadline.
//!
//! ```text
//! let Entry::Entered(ticket) = hall.enter(key) else { .. };
//! hall.park(ticket, deadline, half);
//! match hall.resume(&key) {
//!     Claim::Resumed { ticket, value } => ..,
//!     Claim::NotParked => ..,
//! }
//! ```
//!
//! What each call does is the step in `specs/Step.antt`: its condition `may`, the replies that it
//! `allows` and the state `after` it.
#![tactic(auto)]

// what callers hand in and get
mod calls;
mod row;
mod shard;

// the table
mod acts;
mod hall;
mod keys;
mod laws;
mod object;
mod rows;
mod search;
mod turns;

pub use calls::{Call, Claim, Entry, Expiry, Reply, Ticket};
pub use hall::Hall;
pub use laws::{
    lists_of_callers_are_kept, parked_is_claimed_at_most_once, tickets_are_open_until_spent,
};
pub use row::{Row, Stage};
pub use shard::shard_of;
use waf_plain::Bytes;

/// What a transaction is parked under, so that its response finds it.
#[derive(Clone, Debug, PartialEq, Eq, Drop)]
pub struct Key {
    /// The name of the application as the message gave it, empty where it gave none.
    pub app: Bytes,
    /// The identifier of the request.
    pub id: Bytes,
}

/// The rows of a table of transactions.
#[derive(Clone, Copy, Debug, PartialEq, Eq)]
pub struct Counts {
    /// Those that are being judged.
    pub running: u64,
    /// Those that wait for their response.
    pub parked: u64,
}
