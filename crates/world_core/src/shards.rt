//! The shards of the table: a call of the one that a key or a ticket belongs to.
ghost use Rattle.std.specs.Prelude.{◌≡◌, ◌<◌, IfOk, length};
ghost use Rattle.hall_core.specs.Shard.{shard_of};
ghost use Rattle.hall_core.specs.declared.calls.Call.{Call};
ghost use Rattle.hall_core.specs.declared.calls.Entry.{Entry};
ghost use Rattle.hall_core.specs.declared.calls.Reply.{Reply};
ghost use Rattle.hall_core.specs.declared.calls.Ticket.{Ticket};
ghost use Rattle.world_core.specs.Acts.{Called};
ghost use Rattle.world_core.specs.Standing.{AreNew, Runs};
ghost use Rattle.world_core.specs.Steps.{counts_of};

use crate::judge::Judge;
use crate::judged::Judged;
use hall_core::{Claim, Counts, Entry, Expiry, Hall, Key, Ticket, shard_of};
use std::alloc::Global;
use std::marker::Model;
use waf_plain::NoMemory;

/// One shard at least, each with the number of its place.
#[derive(Drop)]
pub struct Shards<J: Judge> {
    halls: Vec<Hall<Judged<J>>>,
}

impl<J: Judge> Model for Shards<J> {
    ghost use Rattle.std.specs.Prelude.{◌<◌, ◌^◌, length};
    ghost use Rattle.world_core.specs.World.{Halls};
    ghost use Rattle.world_core.specs.Standing.{AreNumbered};

    ghost Value = { Halls };

    ghost view = { λ s. s.halls.items };

    ghost invariant = { λ s. (0 < length s.halls.items) × (length s.halls.items < 2 ^ 32) × AreNumbered s.halls.items };
}

impl<J: Judge> Shards<J> {
    /// So many shards without rows, for so many rows each.
    pub fn new(alloc: Global, count: u32, capacity: u32) -> Result<Shards<J>, NoMemory>
        requires { 0 < count }
        ensures { IfOk result (λ shards. AreNew count capacity shards) }
    {
        let halls = new_halls(alloc, count, capacity)?;
        Ok(Shards { halls })
    }

    /// A row in the shard of this key.
    pub fn enter(&mut self, key: Key) -> Entry
        ensures called { Called self.old (shard_of (length self.old) key) (Call.Enter key) (Reply.OfEnter result)
            self.new }
        ensures runs { (ticket : Ticket) → result ≡ Entry.Entered ticket → Runs self.new ticket }
    {
        let shard = shard_of(&key, self.halls.len() as u32);
        self.halls[shard as usize].enter(key)
    }

    /// Parks the row of a ticket.
    pub fn park(&mut self, ticket: Ticket, deadline: u64, half: Judged<J>)
        requires { Runs self.old ticket }
        ensures { Called self.old ticket.shard (Call.Park ticket deadline half) Reply.OfPark self.new }
    {
        self.halls[ticket.shard as usize].park(ticket, deadline, half);
    }

    /// Takes the row of a ticket away.
    pub fn leave(&mut self, ticket: Ticket)
        requires { Runs self.old ticket }
        ensures { Called self.old ticket.shard (Call.Leave ticket) Reply.OfLeave self.new }
    {
        self.halls[ticket.shard as usize].leave(ticket);
    }

    /// Claims what is parked under this key.
    pub fn resume(&mut self, key: &Key) -> Claim<Judged<J>>
        ensures { Called self.old (shard_of (length self.old) key.now) (Call.Resume key.now) (Reply.OfResume result)
            self.new }
    {
        let shard = shard_of(key, self.halls.len() as u32);
        self.halls[shard as usize].resume(key)
    }

    /// Claims what is due first in a shard.
    pub fn expire(&mut self, shard: u32, now: u64) -> Expiry<Judged<J>>
        requires { shard < length self.old }
        ensures { Called self.old shard (Call.Expire now) (Reply.OfExpire result) self.new }
    {
        self.halls[shard as usize].expire(now)
    }

    /// How many rows there are in all shards.
    pub fn counts(&self) -> Counts
        ensures { result ≡ counts_of self.now }
    {
        sum_of(&self.halls)
    }
}

fn new_halls<J: Judge>(
    alloc: Global,
    count: u32,
    capacity: u32,
) -> Result<Vec<Hall<Judged<J>>>, NoMemory>
    ensures { IfOk result (λ halls. AreNew count capacity halls.items) }
{
    let mut halls = Vec::new(alloc);
    for shard in 0..count {
        halls.push(Hall::new(alloc, shard, capacity)?)?;
    }
    Ok(halls)
}

fn sum_of<J: Judge>(halls: &[Hall<Judged<J>>]) -> Counts
    ensures { result ≡ counts_of halls.now }
{
    let mut sum = Counts {
        running: 0,
        parked: 0,
    };
    for hall in halls {
        let counts = hall.counts();
        sum.running = sum.running.saturating_add(counts.running);
        sum.parked = sum.parked.saturating_add(counts.parked);
    }
    sum
}
