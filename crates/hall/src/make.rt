//! A call on one shard.
ghost use Rattle.std.specs.Prelude.{◌≡◌, ◌<◌, slice_get, Some};
ghost use Rattle.turn_lock.specs.Lock.{own_of};
ghost use Rattle.hall_core.specs.Shared.{fits};
ghost use Rattle.hall.specs.Passes.{Answered, IsPassOfHall, KeepsOthers, Seat, Turned, passes_of, shards_of};

use crate::shared::{HallPass, SharedHall};
use hall_core::{Call, Reply};
use std::sync::Wait;

impl<P> SharedHall<P> {
    // Makes a call in one turn on a shard.
    pub(crate) fn make<W: Wait>(
        &self,
        rt: &W,
        pass: &mut HallPass<P>,
        shard: u32,
        call: Call<P>,
    ) -> Reply<P>
        requires hall { IsPassOfHall self.now pass.old }
        requires shard { shard < shards_of self.now }
        requires fits { (q : Seat P) → slice_get (passes_of pass.old) shard ≡ Some q → fits (own_of q) call }
        ensures hall { IsPassOfHall self.now pass.new }
        ensures call { Turned self.now shard pass.old call result pass.new }
        ensures reply { Answered call result }
        ensures others { KeepsOthers shard call pass.old pass.new }
    {
        let lock = &self.locks[shard as usize];
        let seat = &mut pass.seats[shard as usize];
        lock.act(rt, seat, call)
    }
}
