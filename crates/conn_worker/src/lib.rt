//! What a worker does: it serves the peers of a door, one connection after the other, over the table of transactions
//! and the list of applications that it shares with others.
//!
//! ```text
//! let end = work(rt, alloc, &mut door, &desk, &mut desk_pass, &rules, &mut rules_pass, size, &clock, &gate, 0);
//! ```
//!
//! What its passes own after a connection is `Served` in `specs/Served.antt`: the entries that `Serves` in
//! `specs/Serving.antt` names need by need, in the order of the connection's trace, and no others.
#![tactic(auto)]

mod answers;
mod host;
mod judge;
mod peers;
mod rules;
mod serve;
mod turns;
mod worker;

pub use peers::{WorkEnd, work};
pub use rules::{Handle, SharedRules};
pub use serve::serve_conn;
