//! Opening a shared table.
ghost use Rattle.std.specs.Prelude.{◌≡◌, ◌<◌, ◌≤◌, IfOk, Some, slice_get};
ghost use Rattle.hall.specs.Parts.{MaySplit};
ghost use Rattle.hall.specs.Passes.{IsFirst, IsPassOfHall, PassesOf, locks_of, shards_of};

use crate::shared::{HallPass, Seats, Shards, SharedHall};
use hall_core::Hall;
use std::alloc::Global;
use turn_lock::TurnLock;
use waf_plain::NoMemory;

impl<P: Drop> SharedHall<P> {
    /// A table of so many shards, each for at most `capacity` rows, and its first pass, which has
    /// all shares.
    pub fn new(
        alloc: Global,
        shards: u32,
        capacity: u32,
    ) -> Result<(SharedHall<P>, HallPass<P>), NoMemory>
        requires { (1 ≤ shards) × (shards ≤ 64) }
        ensures shards { IfOk result (λ t. shards_of t.0 ≡ shards) }
        ensures share { IfOk result (λ t. MaySplit t.1) }
        ensures pass { IfOk result (λ t. IsPassOfHall t.0 t.1 × IsFirst capacity t.0 t.1) }
    {
        let mut locks = Vec::with_capacity(alloc, shards as usize)?;
        let mut seats = Vec::with_capacity(alloc, shards as usize)?;
        for shard in 0..shards {
            let hall = Hall::new(alloc, shard, capacity)?;
            let (lock, seat) = TurnLock::new(alloc, hall)?;
            locks.push_reserved(lock);
            seats.push_reserved(seat);
        }
        Ok((Shards { locks }, Seats { seats }))
    }
}

impl<P> SharedHall<P> {
    /// How many shards there are. It waits for nobody.
    pub fn shards(&self) -> u32
        ensures { result ≡ shards_of self.now }
    {
        self.locks.len() as u32
    }

    /// The lock of a shard, counted from 0. It waits for nobody and makes no call.
    pub fn shard_lock(&self, shard: u32) -> &TurnLock<Hall<P>>
        requires { shard < shards_of self.now }
        ensures lock { slice_get (locks_of self.now) shard ≡ Some result.now }
        ensures passes { PassesOf self.now shard result.now }
    {
        &self.locks[shard as usize]
    }
}
