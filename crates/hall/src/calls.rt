//! The calls, each in one turn on one shard.
ghost use Rattle.std.specs.Prelude.{◌≡◌, ◌<◌};
ghost use Rattle.hall_core.specs.Shard.{shard_of};
ghost use Rattle.hall_core.specs.declared.calls.Call.{Call};
ghost use Rattle.hall_core.specs.declared.calls.Reply.{Reply};
ghost use Rattle.hall.specs.Passes.{Holds, HoldsEntered, IsPassOfHall, KeepsOthers, Turned, shards_of};
ghost use Rattle.hall.specs.Claims.{ExpiresFirst, NoneIsDue, ResumesFirst};

use crate::replies::{claim_of, counts_of, entry_of, expiry_of, left_of, parked_of};
use crate::shared::{HallPass, SharedHall};
use hall_core::{Call, Claim, Counts, Entry, Expiry, Key, Ticket, shard_of};
use std::sync::Wait;

impl<P> SharedHall<P> {
    /// A row for this key in its shard, which runs, and its ticket. The pass may park the ticket or
    /// leave with it.
    pub fn enter<W: Wait>(&self, rt: &W, pass: &mut HallPass<P>, key: Key) -> Entry
        requires hall { IsPassOfHall self.now pass.old }
        ensures hall { IsPassOfHall self.now pass.new }
        ensures call { Turned self.now (shard_of (shards_of self.now) key) pass.old (Call.Enter key) (Reply.OfEnter result)
            pass.new }
        ensures ticket { HoldsEntered pass.new result }
        ensures others { KeepsOthers (shard_of (shards_of self.now) key) (Call.Enter key) pass.old pass.new }
    {
        let shard = shard_of(&key, self.shards());
        entry_of(self.make(rt, pass, shard, Call::Enter(key)))
    }

    /// Parks the ticket's row.
    pub fn park<W: Wait>(
        &self,
        rt: &W,
        pass: &mut HallPass<P>,
        ticket: Ticket,
        deadline: u64,
        value: P,
    )
        requires hall { IsPassOfHall self.now pass.old }
        requires ticket { Holds pass.old ticket }
        ensures hall { IsPassOfHall self.now pass.new }
        ensures call { Turned self.now ticket.shard pass.old (Call.Park ticket deadline value) Reply.OfPark
            pass.new }
        ensures others { KeepsOthers ticket.shard (Call.Park ticket deadline value) pass.old pass.new }
    {
        let shard = ticket.shard;
        parked_of(self.make(rt, pass, shard, Call::Park(ticket, deadline, value)))
    }

    /// Takes the ticket's row away.
    pub fn leave<W: Wait>(&self, rt: &W, pass: &mut HallPass<P>, ticket: Ticket)
        requires hall { IsPassOfHall self.now pass.old }
        requires ticket { Holds pass.old ticket }
        ensures hall { IsPassOfHall self.now pass.new }
        ensures call { Turned self.now ticket.shard pass.old (Call.Leave ticket) Reply.OfLeave pass.new }
        ensures others { KeepsOthers ticket.shard (Call.Leave ticket) pass.old pass.new }
    {
        let shard = ticket.shard;
        left_of(self.make(rt, pass, shard, Call::Leave(ticket)))
    }

    /// Claims what is parked under a key.
    pub fn resume<W: Wait>(&self, rt: &W, pass: &mut HallPass<P>, key: Key) -> Claim<P>
        requires hall { IsPassOfHall self.now pass.old }
        ensures hall { IsPassOfHall self.now pass.new }
        ensures call { Turned self.now (shard_of (shards_of self.now) key) pass.old (Call.Resume key)
            (Reply.OfResume result) pass.new }
        ensures first { ResumesFirst (shard_of (shards_of self.now) key) pass.new result }
        ensures others { KeepsOthers (shard_of (shards_of self.now) key) (Call.Resume key) pass.old pass.new }
    {
        let shard = shard_of(&key, self.shards());
        claim_of(self.make(rt, pass, shard, Call::Resume(key)))
    }

    /// Claims what is due first in a shard at a moment.
    pub fn expire<W: Wait>(&self, rt: &W, pass: &mut HallPass<P>, shard: u32, now: u64) -> Expiry<P>
        requires hall { IsPassOfHall self.now pass.old }
        requires shard { shard < shards_of self.now }
        ensures hall { IsPassOfHall self.now pass.new }
        ensures call { Turned self.now shard pass.old (Call.Expire now) (Reply.OfExpire result) pass.new }
        ensures first { ExpiresFirst shard pass.new result }
        ensures none { NoneIsDue shard now pass.new result }
        ensures others { KeepsOthers shard (Call.Expire now) pass.old pass.new }
    {
        expiry_of(self.make(rt, pass, shard, Call::Expire(now)))
    }

    /// How many rows a shard has.
    pub fn counts<W: Wait>(&self, rt: &W, pass: &mut HallPass<P>, shard: u32) -> Counts
        requires hall { IsPassOfHall self.now pass.old }
        requires shard { shard < shards_of self.now }
        ensures hall { IsPassOfHall self.now pass.new }
        ensures call { Turned self.now shard pass.old Call.Count (Reply.OfCount result) pass.new }
        ensures others { KeepsOthers shard Call.Count pass.old pass.new }
    {
        counts_of(self.make(rt, pass, shard, Call::Count))
    }
}
