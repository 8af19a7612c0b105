//! One connection.
ghost use Rattle.std.specs.Prelude.{◌≡◌};
ghost use Rattle.waf_io.specs.Counts.{Rose};
ghost use Rattle.turn_lock.specs.Lock.{share_of};
ghost use Rattle.hall.specs.Passes.{IsPassOfHall};
ghost use Rattle.conn_loop.specs.Ends.{around};
ghost use Rattle.conn_worker.specs.Entries.{IsPassOfShelf, shares_of};
ghost use Rattle.conn_worker.specs.Desk.{passes};
ghost use Rattle.conn_worker.specs.Served.{closing_of, Served};

use crate::rules::Handle;
use crate::worker::Worker;
use conn_core::Closing;
use conn_loop::{ConnEnd, serve};
use hall::{HallPass, SharedHall};
use shelf_lock::{SharedShelf, ShelfPass};
use spop_frame::status;
use std::alloc::Global;
use std::sync::Wait;
use tx_core::Half;
use waf_io::{Clock, Gate, Sink, Source};

/// Serves one connection up to its end, and answers how it closed.
pub fn serve_conn<W: Wait, S: Source, K: Sink, C: Clock, G: Gate>(
    rt: &W,
    alloc: Global,
    source: &mut S,
    sink: &mut K,
    desk: &SharedHall<Half>,
    desk_pass: &mut HallPass<Half>,
    rules: &SharedShelf<Handle>,
    rules_pass: &mut ShelfPass<Handle>,
    size: u32,
    clock: &C,
    gate: &G,
    worker: u32,
) -> Closing
    requires desk { IsPassOfHall desk.now desk_pass.old }
    requires rules { IsPassOfShelf rules.now rules_pass.old }
    ensures desk { IsPassOfHall desk.now desk_pass.new }
    ensures rules { IsPassOfShelf rules.now rules_pass.new }
    ensures shares { (shares_of desk_pass.new ≡ shares_of desk_pass.old)
        × (share_of rules_pass.new ≡ share_of rules_pass.old) }
    ensures served { Served (C.told clock.now) size result
        (around (passes desk_pass.old rules_pass.old) (S.left source.old) (S.ends source.old) (K.held sink.old))
        (around (passes desk_pass.new rules_pass.new) (S.left source.new) (S.ends source.new) (K.held sink.new)) }
    ensures read_fault { result ≡ Closing.ReadFault → Rose (S.faults source.old) (S.faults source.new) }
    ensures write_fault { result ≡ Closing.WriteFault → Rose (K.faults sink.old) (K.faults sink.new) }
{
    let mut host = Worker {
        rt,
        alloc,
        desk,
        desk_pass,
        rules,
        rules_pass,
        clock,
        gate,
        worker,
        moment: 0,
    };
    closing_of(serve(alloc, size, &mut host, source, sink))
}

// How a connection closed, by the end of the loop over its needs.
fn closing_of(end: ConnEnd) -> Closing
    ensures { result ≡ closing_of end }
{
    match end {
        ConnEnd::Closed(how) => how,
        ConnEnd::Spent => Closing::Spent,
        ConnEnd::ReadFault => Closing::ReadFault,
        ConnEnd::WriteFault => Closing::WriteFault,
        ConnEnd::NoMemory => Closing::Ended(status::NO_MEMORY),
    }
}
