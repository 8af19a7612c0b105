//! The shared table and its passes.
ghost use Rattle.std.specs.Prelude.{◌<◌, ◌≤◌, length};

use hall_core::Hall;
use turn_lock::{Pass, TurnLock};

/// A lock for each shard. It is generic in the lock, so that it is seen to be `Send` and `Sync`.
#[derive(Drop)]
pub struct Shards<L> {
    pub(crate) locks: Vec<L>,
    ghost some: { 0 < length locks.items },
    ghost few: { length locks.items ≤ 64 },
}

/// A pass of each shard's lock.
#[derive(Drop)]
pub struct Seats<S> {
    pub(crate) seats: Vec<S>,
}

/// The table of transactions. Share it by reference, and hand each thread a pass of its own.
pub type SharedHall<P> = Shards<TurnLock<Hall<P>>>;

/// The leave to make calls on one shared table.
pub type HallPass<P> = Seats<Pass<Hall<P>>>;
