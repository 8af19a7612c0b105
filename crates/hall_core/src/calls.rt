//! Calls and replies.
use crate::{Counts, Key};

/// The right to park a row or to take it away again. It can't be copied. One that is dropped leaves its
/// row running.
#[derive(Debug, Drop)]
pub struct Ticket {
    pub shard: u32,
    /// Counted from 1.
    pub number: u64,
}

/// What entering answers. But for `Entered` the table is as before.
#[derive(Debug, Drop)]
pub enum Entry {
    /// The key has a row now, which runs.
    Entered(Ticket),
    /// The key had a row, whose ticket has this number.
    IdInUse(u64),
    /// There is no room for a further row; how many there are.
    Full(u64),
    /// All tickets were given; the number of the last.
    Worn(u64),
}

/// What a response finds.
#[derive(Debug, Drop)]
pub enum Claim<P> {
    /// What was parked under the key; its row is gone.
    Resumed { ticket: u64, value: P },
    /// The key has no row that is parked. The table is as before.
    NotParked,
}

/// What is due.
#[derive(Debug, Drop)]
pub enum Expiry<P> {
    /// What was parked with the least deadline, and of several the one with the least number; its row
    /// is gone.
    Expired { ticket: u64, key: Key, value: P },
    /// Nothing that is parked has a deadline that has come. The table is as before.
    NothingDue,
}

/// A call of the table, with what it hands in.
#[derive(Drop)]
pub enum Call<P> {
    Enter(Key),
    Park(Ticket, u64, P),
    Leave(Ticket),
    Resume(Key),
    Expire(u64),
    Count,
}

/// What a call answers, each by its own kind.
#[derive(Drop)]
pub enum Reply<P> {
    OfEnter(Entry),
    OfPark,
    OfLeave,
    OfResume(Claim<P>),
    OfExpire(Expiry<P>),
    OfCount(Counts),
}
