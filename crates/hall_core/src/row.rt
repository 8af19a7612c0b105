//! The rows of the table, as its definition names them.
use crate::Key;

/// Where a transaction is on its way.
#[derive(Drop)]
pub enum Stage<P> {
    /// Its request is being judged.
    Running,
    /// It waits for its response.
    Parked { deadline: u64, value: P },
}

/// A transaction that has entered and was neither claimed nor has left.
#[derive(Drop)]
pub struct Row<P> {
    pub key: Key,
    /// The number of its ticket.
    pub number: u64,
    pub stage: Stage<P>,
}
