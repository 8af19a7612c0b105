ghost use Rattle.std.specs.Prelude.{◌≡◌, ◌≢◌, ◌⊎◌, ◌≤◌, Err, IfSome};
ghost use Rattle.waf_io.specs.Counts.{Rose};
ghost use Rattle.agent_conf.specs.declared.load_fault.LoadFault.{LoadFault};
ghost use Rattle.agent_conf.specs.Loading.{loaded};
ghost use Rattle.reports.specs.FaultLines.{fault_line};
ghost use Rattle.reports.specs.Report.{Prints};
ghost use Rattle.reports.specs.declared.exit_status.TheConstants as statuses;

use agent_conf::{Conf, load};
use agent_serve::{Agent, open, serve_on};
use conn_worker::Handle;
use reports::exit_status::{OUT_OF_MEMORY, READ_FAULT, REFUSED};
use reports::{CommandFault, command_fault, report};
use shelf::Apps;
use std::alloc::Global;
use std::sync::Wait;
use std::thread::Threads;
use waf_io::{Clock, Door, Doors, Files, Gate, Sink, Source};
use waf_plain::NoMemory;

/// Serves under the configuration of that name until the input says `stop` or ends. What it does then is `ServedOn` in
/// `agent_serve`, on a table and a list of its own.
pub fn serve<
    W: Threads + Wait + Sync,
    F: Files,
    S: Source,
    K: Sink,
    D: Doors,
    C: Clock + Sync,
    G: Gate + Sync,
>(
    rt: &W,
    alloc: Global,
    name: &[u8],
    files: &mut F,
    input: &mut S,
    output: &mut K,
    doors: &mut D,
    clock: &C,
    gate: &G,
) -> u8
where
    D::D: Send,
    <D::D as Door>::In: Send,
    <D::D as Door>::Out: Send,
    ensures refused { IfSome (F.content files.old) (λ told. (fault : LoadFault) → loaded told name.now ≡ Err fault
        → Prints result statuses.REFUSED (fault_line name.now fault)
        (F.faults files.old) (F.faults files.new) (K.held output.old) (K.held output.new)
        × (S.left input.new ≡ S.left input.old)) }
    ensures out { D.out doors.new ≡ D.out doors.old }
    ensures other { (result ≢ statuses.UNFINISHED) × (result ≢ statuses.OTHER_WORDS) }
    ensures read_fault { result ≡ statuses.READ_FAULT
        → Rose (F.faults files.old) (F.faults files.new) ⊎ Rose (S.faults input.old) (S.faults input.new) }
    ensures write_fault { result ≡ statuses.WRITE_FAULT → Rose (K.faults output.old) (K.faults output.new) }
    ensures door_fault { result ≡ statuses.DOOR_FAULT → Rose (D.faults doors.old) (D.faults doors.new) }
{
    match load(alloc, name, files) {
        Ok((conf, apps)) => under(
            rt, alloc, name, files, input, output, doors, clock, gate, &conf, apps,
        ),
        Err(fault) => match command_fault(alloc, name, fault) {
            CommandFault::Line(line) => report(output, line.as_slice(), REFUSED),
            CommandFault::ReadFault => READ_FAULT,
            CommandFault::NoMemory => OUT_OF_MEMORY,
        },
    }
}

// Serves under this configuration, with these applications at first.
fn under<
    W: Threads + Wait + Sync,
    F: Files,
    S: Source,
    K: Sink,
    D: Doors,
    C: Clock + Sync,
    G: Gate + Sync,
>(
    rt: &W,
    alloc: Global,
    name: &[u8],
    files: &mut F,
    input: &mut S,
    output: &mut K,
    doors: &mut D,
    clock: &C,
    gate: &G,
    conf: &Conf,
    apps: Apps<Handle>,
) -> u8
where
    D::D: Send,
    <D::D as Door>::In: Send,
    <D::D as Door>::Out: Send,
    requires shards { (1 ≤ conf.now.shards) × (conf.now.shards ≤ 64) }
    requires workers { (1 ≤ conf.now.workers) × (conf.now.workers ≤ 64) }
    ensures other { (result ≢ statuses.UNFINISHED) × (result ≢ statuses.OTHER_WORDS) × (result ≢ statuses.REFUSED) }
    ensures out { D.out doors.new ≡ D.out doors.old }
    ensures read_fault { result ≡ statuses.READ_FAULT → Rose (S.faults input.old) (S.faults input.new) }
    ensures write_fault { result ≡ statuses.WRITE_FAULT → Rose (K.faults output.old) (K.faults output.new) }
    ensures door_fault { result ≡ statuses.DOOR_FAULT → Rose (D.faults doors.old) (D.faults doors.new) }
{
    let Ok(agent) = open(alloc, conf.shards, conf.capacity, conf.workers, apps) else {
        return OUT_OF_MEMORY;
    };
    let Agent {
        desk,
        mut desk_pass,
        rules,
        mut rules_pass,
        mut crew,
    } = agent;
    serve_on(
        rt,
        alloc,
        name,
        files,
        input,
        output,
        doors,
        conf.listen.as_slice(),
        crew.as_mut_slice(),
        &desk,
        &mut desk_pass,
        &rules,
        &mut rules_pass,
        conf.size,
        clock,
        gate,
    )
}
