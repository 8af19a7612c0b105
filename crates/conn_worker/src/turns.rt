//! What a worker asks of the table of transactions, and what its pass owns then.
ghost use Rattle.std.specs.Prelude.{◌≡◌, ◌∷◌, [], ◌<◌, length};
ghost use Rattle.turn_lock.specs.History.{entry};
ghost use Rattle.hall_core.specs.Shard.{shard_of};
ghost use Rattle.hall_core.specs.declared.calls.Call.{Call};
ghost use Rattle.hall_core.specs.declared.calls.Expiry.{Expiry};
ghost use Rattle.hall_core.specs.declared.calls.Reply.{Reply};
ghost use Rattle.hall_core.specs.declared.calls.Ticket.{Ticket};
ghost use Rattle.hall.specs.Passes.{IsPassOfHall, shards_of};
ghost use Rattle.tx_core.specs.HalfView.{HalfView};
ghost use Rattle.conn_worker.specs.Entries.{After, Held, lists_of};

use crate::judge::ends;
use hall::{HallPass, SharedHall};
use hall_core::{Claim, Entry, Expiry, Key, Ticket, shard_of};
use std::alloc::Global;
use std::sync::Wait;
use tx_core::Half;

// A row for a key, after what is due first on its shard was claimed and ended.
pub fn enter<W: Wait>(
    rt: &W,
    alloc: Global,
    desk: &SharedHall<Half>,
    pass: &mut HallPass<Half>,
    key: Key,
    moment: u64,
) -> Entry
    requires { IsPassOfHall desk.now pass.old }
    ensures after { (expiry : Expiry HalfView) × After desk.now (shard_of (length (lists_of pass.old)) key)
        (entry (Call.Expire moment) (Reply.OfExpire expiry) ∷ entry (Call.Enter key) (Reply.OfEnter result) ∷ [])
        pass.old pass.new }
    ensures ticket { (ticket : Ticket) → result ≡ Entry.Entered ticket → Held (lists_of pass.new) ticket }
{
    let shard = shard_of(&key, desk.shards());
    expire(rt, alloc, desk, pass, shard, moment);
    desk.enter(rt, pass, key)
}

// Claims what is due first on a shard, and ends it. Its lines are dropped; it has none where there is no memory.
fn expire<W: Wait>(
    rt: &W,
    alloc: Global,
    desk: &SharedHall<Half>,
    pass: &mut HallPass<Half>,
    shard: u32,
    moment: u64,
)
    requires hall { IsPassOfHall desk.now pass.old }
    requires shard { shard < shards_of desk.now }
    ensures { (expiry : Expiry HalfView) × After desk.now shard
        (entry (Call.Expire moment) (Reply.OfExpire expiry) ∷ []) pass.old pass.new }
{
    if let Expiry::Expired { value, .. } = desk.expire(rt, pass, shard, moment) {
        ends(alloc, value);
    }
}

// Parks a half until a deadline.
pub fn park<W: Wait>(
    rt: &W,
    desk: &SharedHall<Half>,
    pass: &mut HallPass<Half>,
    ticket: Ticket,
    deadline: u64,
    half: Half,
)
    requires hall { IsPassOfHall desk.now pass.old }
    requires ticket { Held (lists_of pass.old) ticket }
    ensures { After desk.now ticket.shard (entry (Call.Park ticket deadline half) Reply.OfPark ∷ [])
        pass.old pass.new }
{
    desk.park(rt, pass, ticket, deadline, half);
}

// Takes the row of a ticket away.
pub fn leave<W: Wait>(rt: &W, desk: &SharedHall<Half>, pass: &mut HallPass<Half>, ticket: Ticket)
    requires hall { IsPassOfHall desk.now pass.old }
    requires ticket { Held (lists_of pass.old) ticket }
    ensures { After desk.now ticket.shard (entry (Call.Leave ticket) Reply.OfLeave ∷ []) pass.old pass.new }
{
    desk.leave(rt, pass, ticket);
}

// Claims what is parked under a key.
pub fn resume<W: Wait>(
    rt: &W,
    desk: &SharedHall<Half>,
    pass: &mut HallPass<Half>,
    key: Key,
) -> Claim<Half>
    requires { IsPassOfHall desk.now pass.old }
    ensures { After desk.now (shard_of (length (lists_of pass.old)) key)
        (entry (Call.Resume key) (Reply.OfResume result) ∷ []) pass.old pass.new }
{
    desk.resume(rt, pass, key)
}
