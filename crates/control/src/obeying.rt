//! The loop over the lines of the input.
ghost use Rattle.std.specs.Prelude.{◌≡◌, ◌≢◌, ◌≤◌};
ghost use Rattle.turn_lock.specs.Lock.{share_of};
ghost use Rattle.hall.specs.Passes.{IsPassOfHall};
ghost use Rattle.waf_io.specs.Counts.{Rose};
ghost use Rattle.console.specs.Orders as console;
ghost use Rattle.conn_worker.specs.Desk.{passes};
ghost use Rattle.conn_worker.specs.Entries.{IsPassOfShelf, shares_of};
ghost use Rattle.control.specs.Controlled.{Controlled, around};
ghost use Rattle.control.specs.Written.{Obeyed};

use crate::counting::stats;
use crate::parts::write_text;
use crate::reloading::reload;
use conn_worker::Handle;
use console::{Asked, Order, next_order};
use hall::{HallPass, SharedHall};
use shelf_lock::{SharedShelf, ShelfPass};
use std::alloc::Global;
use std::sync::Wait;
use tx_core::Half;
use waf_io::{Files, Sink, Source, Wrote};

/// How the loop ended.
#[derive(Clone, Copy, Debug, PartialEq, Eq)]
pub enum ControlEnd {
    /// `stop` was read.
    Stopped,
    /// The input ended.
    Ended,
    /// Reading the input failed.
    ReadFault,
    /// Writing a line failed.
    WriteFault,
}

/// Does what the lines of the input ask for, one after the other, up to `stop`, the end of the input, or a fault of
/// input or output. A reload loads the configuration of that name.
pub fn control<W: Wait, F: Files, S: Source, K: Sink>(
    rt: &W,
    alloc: Global,
    name: &[u8],
    files: &mut F,
    input: &mut S,
    output: &mut K,
    desk: &SharedHall<Half>,
    desk_pass: &mut HallPass<Half>,
    rules: &SharedShelf<Handle>,
    rules_pass: &mut ShelfPass<Handle>,
) -> ControlEnd
    requires desk { IsPassOfHall desk.now desk_pass.old }
    requires rules { IsPassOfShelf rules.now rules_pass.old }
    ensures desk { IsPassOfHall desk.now desk_pass.new }
    ensures rules { IsPassOfShelf rules.now rules_pass.new }
    ensures shares { (shares_of desk_pass.new ≡ shares_of desk_pass.old)
        × (share_of rules_pass.new ≡ share_of rules_pass.old) }
    ensures controlled { Controlled (F.content files.old) name.now result
        (around (console.around (S.left input.old) (S.ends input.old)) (passes desk_pass.old rules_pass.old)
        (K.held output.old) (F.faults files.old))
        (around (console.around (S.left input.new) (S.ends input.new)) (passes desk_pass.new rules_pass.new)
        (K.held output.new) (F.faults files.new)) }
    ensures same { F.content files.new ≡ F.content files.old }
    ensures read_fault { result ≡ ControlEnd.ReadFault → Rose (S.faults input.old) (S.faults input.new) }
    ensures write_fault { result ≡ ControlEnd.WriteFault → Rose (K.faults output.old) (K.faults output.new) }
{
    for _ in rt.forever() {
        match next_order(rt, input) {
            Asked::End => return ControlEnd::Ended,
            Asked::ReadFault => return ControlEnd::ReadFault,
            Asked::Order(Order::Stop) => return ControlEnd::Stopped,
            Asked::Order(order) => {
                match obey(
                    rt, alloc, name, files, order, output, desk, desk_pass, rules, rules_pass,
                ) {
                    Wrote::All => {}
                    Wrote::Failed => return ControlEnd::WriteFault,
                }
            }
        }
    }
    unreachable!()
}

// Does what a line asks for, and writes what it prints.
fn obey<W: Wait, F: Files, K: Sink>(
    rt: &W,
    alloc: Global,
    name: &[u8],
    files: &mut F,
    order: Order,
    output: &mut K,
    desk: &SharedHall<Half>,
    desk_pass: &mut HallPass<Half>,
    rules: &SharedShelf<Handle>,
    rules_pass: &mut ShelfPass<Handle>,
) -> Wrote
    requires goes_on { order ≢ Order.Stop }
    requires desk { IsPassOfHall desk.now desk_pass.old }
    requires rules { IsPassOfShelf rules.now rules_pass.old }
    ensures desk { IsPassOfHall desk.now desk_pass.new }
    ensures rules { IsPassOfShelf rules.now rules_pass.new }
    ensures shares { (shares_of desk_pass.new ≡ shares_of desk_pass.old)
        × (share_of rules_pass.new ≡ share_of rules_pass.old) }
    ensures obeyed { Obeyed (F.content files.old) name.now order result
        (passes desk_pass.old rules_pass.old) (passes desk_pass.new rules_pass.new)
        (K.held output.old) (K.held output.new) (F.faults files.old) (F.faults files.new) }
    ensures same { F.content files.new ≡ F.content files.old }
    ensures later { K.faults output.old ≤ K.faults output.new }
    ensures cause { result ≡ Wrote.Failed → Rose (K.faults output.old) (K.faults output.new) }
{
    match order {
        Order::Reload => reload(rt, alloc, name, files, output, rules, rules_pass),
        Order::Stats => stats(rt, output, desk, desk_pass),
        Order::Unknown => write_text(output, b"unknown\n"),
        Order::Nothing => Wrote::All,
        Order::Stop => unreachable!(),
    }
}
