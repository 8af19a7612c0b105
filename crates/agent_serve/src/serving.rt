//! Doors, crew and orders.
ghost use Rattle.std.specs.Prelude.{◌≡◌, ◌≤◌, ◌<◌, false, length};
ghost use Rattle.std.specs.List.{All, list_any};
ghost use Rattle.std.specs.Thread.{IsSync};
ghost use Rattle.turn_lock.specs.Lock.{share_of};
ghost use Rattle.waf_io.specs.Counts.{Rose};
ghost use Rattle.hall.specs.Passes.{IsPassOfHall};
ghost use Rattle.console.specs.Orders as console;
ghost use Rattle.crew.specs.Served.{Each};
ghost use Rattle.conn_worker.specs.Entries.{IsPassOfShelf, shares_of};
ghost use Rattle.conn_worker.specs.Desk.{passes};
ghost use Rattle.conn_worker.specs.Worked.{sight};
ghost use Rattle.control.specs.Controlled.{around};
ghost use Rattle.reports.specs.declared.exit_status.TheConstants as statuses;
ghost use Rattle.agent_serve.specs.Crew.{Did, IsMember, door_sight, is_failed};
ghost use Rattle.agent_serve.specs.ServedOn.{Ordered, ServedOn, status_of};
ghost use denote.Param.Send.{IsSend};

use crate::member::Member;
use crate::station::{Station, Tables};
use conn_worker::{Handle, WorkEnd};
use control::{ControlEnd, control};
use crew::{Shift, serve_all};
use hall::{HallPass, SharedHall};
use reports::exit_status::{DONE, DOOR_FAULT, OUT_OF_MEMORY, READ_FAULT, WRITE_FAULT};
use shelf_lock::{SharedShelf, ShelfPass};
use std::alloc::Global;
use std::sync::Wait;
use std::thread::{Threads, join_mut};
use tx_core::Half;
use waf_io::{Clock, Door, Doors, Files, Gate, Opened, Sink, Source};

/// Opens a door for each member of the crew, lets each serve its own, and does what the lines of the input ask for, all
/// side by side where the machine gives threads. It ends when the input says `stop` or ends, or a fault of input or
/// output came, and each member has served what was open; the answer is the exit status.
pub fn serve_on<
    W: Threads + Wait + Sync,
    F: Files,
    S: Source,
    K: Sink,
    D: Doors,
    C: Clock + Sync,
    G: Gate + Sync,
>(
    rt: &W,
    alloc: Global,
    name: &[u8],
    files: &mut F,
    input: &mut S,
    output: &mut K,
    doors: &mut D,
    listen: &[u8],
    crew: &mut [Member],
    desk: &SharedHall<Half>,
    desk_pass: &mut HallPass<Half>,
    rules: &SharedShelf<Handle>,
    rules_pass: &mut ShelfPass<Handle>,
    size: u32,
    clock: &C,
    gate: &G,
) -> u8
where
    D::D: Send,
    <D::D as Door>::In: Send,
    <D::D as Door>::Out: Send,
    requires crew { (0 < length crew.old) × (length crew.old ≤ 64) }
    requires members { All (IsMember desk.now rules.now) crew.old }
    requires desk { IsPassOfHall desk.now desk_pass.old }
    requires rules { IsPassOfShelf rules.now rules_pass.old }
    ensures members { All (IsMember desk.now rules.now) crew.new }
    ensures desk { IsPassOfHall desk.now desk_pass.new }
    ensures rules { IsPassOfShelf rules.now rules_pass.new }
    ensures shares { (shares_of desk_pass.new ≡ shares_of desk_pass.old)
        × (share_of rules_pass.new ≡ share_of rules_pass.old) }
    ensures served { ServedOn desk.now rules.now (C.told clock.now) size
        (door_sight D.D.left D.D.served D.D.is_out D.D.faults D.D.closings
        (sight D.D.In.left D.D.In.ends D.D.In.faults D.D.Out.held D.D.Out.faults))
        (F.content files.old) name.now result crew.old crew.new (D.returned doors.old) (D.returned doors.new)
        (around (console.around (S.left input.old) (S.ends input.old)) (passes desk_pass.old rules_pass.old)
        (K.held output.old) (F.faults files.old))
        (around (console.around (S.left input.new) (S.ends input.new)) (passes desk_pass.new rules_pass.new)
        (K.held output.new) (F.faults files.new)) }
    ensures out { D.out doors.new ≡ D.out doors.old }
    ensures read_fault { result ≡ statuses.READ_FAULT → Rose (S.faults input.old) (S.faults input.new) }
    ensures write_fault { result ≡ statuses.WRITE_FAULT → Rose (K.faults output.old) (K.faults output.new) }
    ensures door_fault { result ≡ statuses.DOOR_FAULT → Rose (D.faults doors.old) (D.faults doors.new) }
{
    match doors.open_doors(alloc, listen, crew.len() as u32) {
        Opened::Failed => DOOR_FAULT,
        Opened::NoMemory => OUT_OF_MEMORY,
        Opened::Doors(mut opened) => {
            let station = Station {
                alloc,
                tables: Tables { desk, rules },
                size,
                clock,
                gate,
            };
            let end = side_by_side(
                rt,
                alloc,
                name,
                files,
                input,
                output,
                doors,
                opened.as_mut_slice(),
                crew,
                &station,
                desk,
                desk_pass,
                rules,
                rules_pass,
            );
            doors.take_back(opened);
            status_of(end, crew)
        }
    }
}

// Each member serves its door while the lines of the input are done; when they are, the doors are shut. The orders
// come second, so that they stay on this thread.
fn side_by_side<
    W: Threads + Wait + Sync,
    F: Files,
    S: Source,
    K: Sink,
    D: Doors,
    M: Send,
    T: Shift<D::D, M> + Sync,
>(
    rt: &W,
    alloc: Global,
    name: &[u8],
    files: &mut F,
    input: &mut S,
    output: &mut K,
    doors: &mut D,
    opened: &mut [D::D],
    crew: &mut [M],
    shift: &T,
    desk: &SharedHall<Half>,
    desk_pass: &mut HallPass<Half>,
    rules: &SharedShelf<Handle>,
    rules_pass: &mut ShelfPass<Handle>,
) -> ControlEnd
where
    D::D: Send,
    requires count { length opened.old ≡ length crew.old }
    requires few { length opened.old ≤ 64 }
    requires open { All (T.is_open shift.now) opened.old }
    requires ready { All (T.is_ready shift.now) crew.old }
    requires desk { IsPassOfHall desk.now desk_pass.old }
    requires rules { IsPassOfShelf rules.now rules_pass.old }
    ensures each { Each (T.did shift.now) 0 opened.old opened.new crew.old crew.new }
    ensures ordered { Ordered desk.now rules.now (F.content files.old) name.now result
        desk_pass.old desk_pass.new rules_pass.old rules_pass.new
        (around (console.around (S.left input.old) (S.ends input.old)) (passes desk_pass.old rules_pass.old)
        (K.held output.old) (F.faults files.old))
        (around (console.around (S.left input.new) (S.ends input.new)) (passes desk_pass.new rules_pass.new)
        (K.held output.new) (F.faults files.new)) }
    ensures out { D.out doors.new ≡ D.out doors.old }
    ensures returned { D.returned doors.new ≡ D.returned doors.old }
    ensures later { D.faults doors.old ≤ D.faults doors.new }
    ensures read_fault { result ≡ ControlEnd.ReadFault → Rose (S.faults input.old) (S.faults input.new) }
    ensures write_fault { result ≡ ControlEnd.WriteFault → Rose (K.faults output.old) (K.faults output.new) }
{
    let ((), end) = join_mut(
        rt,
        &mut ||
            requires { IsSync W.row × IsSync T.row × IsSend D.D.row × IsSend M.row
                × (length opened.now ≡ length crew.now) × (length opened.now ≤ 64)
                × All (T.is_open shift.now) opened.now × All (T.is_ready shift.now) crew.now }
            ensures { Each (T.did shift.entry.now) 0 opened.entry.now opened.exit.now crew.entry.now crew.exit.now }
        { serve_all(rt, shift, 0, opened, crew) },
        &mut ||
            requires { IsPassOfHall desk.now desk_pass.now × IsPassOfShelf rules.now rules_pass.now }
            ensures ordered { Ordered desk.entry.now rules.entry.now (F.content files.entry.now) name.entry.now result
                desk_pass.entry.now desk_pass.exit.now rules_pass.entry.now rules_pass.exit.now
                (around (console.around (S.left input.entry.now) (S.ends input.entry.now))
                (passes desk_pass.entry.now rules_pass.entry.now)
                (K.held output.entry.now) (F.faults files.entry.now))
                (around (console.around (S.left input.exit.now) (S.ends input.exit.now))
                (passes desk_pass.exit.now rules_pass.exit.now)
                (K.held output.exit.now) (F.faults files.exit.now)) }
            ensures doors { (D.out doors.exit.now ≡ D.out doors.entry.now)
                × (D.returned doors.exit.now ≡ D.returned doors.entry.now)
                × (D.faults doors.entry.now ≤ D.faults doors.exit.now) }
            ensures causes { (result ≡ ControlEnd.ReadFault
                → Rose (S.faults input.entry.now) (S.faults input.exit.now))
                × (result ≡ ControlEnd.WriteFault
                → Rose (K.faults output.entry.now) (K.faults output.exit.now)) }
        {
            obey_orders(
                rt, alloc, name, files, input, output, doors, desk, desk_pass, rules, rules_pass,
            )
        },
    );
    end
}

// Does what the lines of the input ask for, and then shuts the doors.
fn obey_orders<W: Wait, F: Files, S: Source, K: Sink, D: Doors>(
    rt: &W,
    alloc: Global,
    name: &[u8],
    files: &mut F,
    input: &mut S,
    output: &mut K,
    doors: &mut D,
    desk: &SharedHall<Half>,
    desk_pass: &mut HallPass<Half>,
    rules: &SharedShelf<Handle>,
    rules_pass: &mut ShelfPass<Handle>,
) -> ControlEnd
    requires desk { IsPassOfHall desk.now desk_pass.old }
    requires rules { IsPassOfShelf rules.now rules_pass.old }
    ensures ordered { Ordered desk.now rules.now (F.content files.old) name.now result
        desk_pass.old desk_pass.new rules_pass.old rules_pass.new
        (around (console.around (S.left input.old) (S.ends input.old)) (passes desk_pass.old rules_pass.old)
        (K.held output.old) (F.faults files.old))
        (around (console.around (S.left input.new) (S.ends input.new)) (passes desk_pass.new rules_pass.new)
        (K.held output.new) (F.faults files.new)) }
    ensures out { D.out doors.new ≡ D.out doors.old }
    ensures returned { D.returned doors.new ≡ D.returned doors.old }
    ensures later { D.faults doors.old ≤ D.faults doors.new }
    ensures read_fault { result ≡ ControlEnd.ReadFault → Rose (S.faults input.old) (S.faults input.new) }
    ensures write_fault { result ≡ ControlEnd.WriteFault → Rose (K.faults output.old) (K.faults output.new) }
{
    let end = control(
        rt, alloc, name, files, input, output, desk, desk_pass, rules, rules_pass,
    );
    doors.shut();
    end
}

// The exit status.
fn status_of(end: ControlEnd, crew: &[Member]) -> u8
    ensures { result ≡ status_of end crew.now }
{
    match end {
        ControlEnd::ReadFault => READ_FAULT,
        ControlEnd::WriteFault => WRITE_FAULT,
        _ if has_failed(crew) => DOOR_FAULT,
        _ => DONE,
    }
}

// Whether a door has failed.
fn has_failed(crew: &[Member]) -> bool
    ensures { result ≡ list_any (λ m. is_failed m.end) crew.now }
{
    crew.iter().any(|member| member.end == WorkEnd::DoorFault)
}
