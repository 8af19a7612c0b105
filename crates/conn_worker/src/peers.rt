//! Peers one after the other.
ghost use Rattle.std.specs.Prelude.{◌≡◌, ◌≤◌, false, Some};
ghost use Rattle.waf_io.specs.Counts.{Rose};
ghost use Rattle.turn_lock.specs.Lock.{share_of};
ghost use Rattle.hall.specs.Passes.{IsPassOfHall};
ghost use Rattle.conn_worker.specs.Entries.{IsPassOfShelf, shares_of};
ghost use Rattle.conn_worker.specs.Desk.{passes};
ghost use Rattle.conn_worker.specs.Worked.{CountsEnd, CountsNext, sight, Worked};

use crate::rules::Handle;
use crate::serve::serve_conn;
use hall::{HallPass, SharedHall};
use shelf_lock::{SharedShelf, ShelfPass};
use std::alloc::Global;
use std::sync::Wait;
use tx_core::Half;
use waf_io::{Came, Clock, Door, Gate};

/// How a worker ended.
#[derive(Clone, Copy, Debug, PartialEq, Eq)]
pub enum WorkEnd {
    /// No peer comes any more.
    Closed,
    /// The door failed.
    DoorFault,
}

/// Serves the peers of a door, one after the other, until it is closed or fails. Each goes back before the next is
/// taken.
pub fn work<W: Wait, D: Door, C: Clock, G: Gate>(
    rt: &W,
    alloc: Global,
    door: &mut D,
    desk: &SharedHall<Half>,
    desk_pass: &mut HallPass<Half>,
    rules: &SharedShelf<Handle>,
    rules_pass: &mut ShelfPass<Handle>,
    size: u32,
    clock: &C,
    gate: &G,
    worker: u32,
) -> WorkEnd
    requires home { D.is_out door.old ≡ false }
    requires desk { IsPassOfHall desk.now desk_pass.old }
    requires rules { IsPassOfShelf rules.now rules_pass.old }
    ensures home { D.is_out door.new ≡ false }
    ensures desk { IsPassOfHall desk.now desk_pass.new }
    ensures rules { IsPassOfShelf rules.now rules_pass.new }
    ensures shares { (shares_of desk_pass.new ≡ shares_of desk_pass.old)
        × (share_of rules_pass.new ≡ share_of rules_pass.old) }
    ensures worked { Worked (sight D.In.left D.In.ends D.In.faults D.Out.held D.Out.faults) (C.told clock.now) size
        (passes desk_pass.old rules_pass.old) (passes desk_pass.new rules_pass.new)
        (D.left door.old) (D.left door.new) (D.served door.old) (D.served door.new) }
    ensures later { D.faults door.old ≤ D.faults door.new }
    ensures cause { result ≡ WorkEnd.DoorFault → Rose (D.faults door.old) (D.faults door.new) }
    ensures closed { CountsEnd result (D.closings door.old) (D.closings door.new) }
{
    for _ in rt.forever() {
        let next = serve_next(
            rt, alloc, door, desk, desk_pass, rules, rules_pass, size, clock, gate, worker,
        );
        if let Some(end) = next {
            return end;
        }
    }
    unreachable!()
}

// Serves the next peer, which goes back then; `Some` where none comes.
fn serve_next<W: Wait, D: Door, C: Clock, G: Gate>(
    rt: &W,
    alloc: Global,
    door: &mut D,
    desk: &SharedHall<Half>,
    desk_pass: &mut HallPass<Half>,
    rules: &SharedShelf<Handle>,
    rules_pass: &mut ShelfPass<Handle>,
    size: u32,
    clock: &C,
    gate: &G,
    worker: u32,
) -> Option<WorkEnd>
    requires home { D.is_out door.old ≡ false }
    requires desk { IsPassOfHall desk.now desk_pass.old }
    requires rules { IsPassOfShelf rules.now rules_pass.old }
    ensures home { D.is_out door.new ≡ false }
    ensures desk { IsPassOfHall desk.now desk_pass.new }
    ensures rules { IsPassOfShelf rules.now rules_pass.new }
    ensures shares { (shares_of desk_pass.new ≡ shares_of desk_pass.old)
        × (share_of rules_pass.new ≡ share_of rules_pass.old) }
    ensures worked { Worked (sight D.In.left D.In.ends D.In.faults D.Out.held D.Out.faults) (C.told clock.now) size
        (passes desk_pass.old rules_pass.old) (passes desk_pass.new rules_pass.new)
        (D.left door.old) (D.left door.new) (D.served door.old) (D.served door.new) }
    ensures later { D.faults door.old ≤ D.faults door.new }
    ensures cause { result ≡ Some WorkEnd.DoorFault → Rose (D.faults door.old) (D.faults door.new) }
    ensures closed { CountsNext result (D.closings door.old) (D.closings door.new) }
{
    match door.next(rt) {
        Came::Closed => Some(WorkEnd::Closed),
        Came::Failed => Some(WorkEnd::DoorFault),
        Came::Peer(mut source, mut sink) => {
            serve_conn(
                rt,
                alloc,
                &mut source,
                &mut sink,
                desk,
                desk_pass,
                rules,
                rules_pass,
                size,
                clock,
                gate,
                worker,
            );
            door.back(source, sink);
            None
        }
    }
}
