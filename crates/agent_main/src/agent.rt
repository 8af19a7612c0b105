ghost use Rattle.std.specs.Prelude.{◌≡◌, ◌⊎◌, Err, IfErr, IfOk, IfSome, List, ℕ, false, true};
ghost use Rattle.waf_io.specs.Counts.{Rose};
ghost use Rattle.command_line.specs.Words.{command_of};
ghost use Rattle.agent_conf.specs.declared.load_fault.LoadFault.{LoadFault};
ghost use Rattle.agent_conf.specs.Loading.{loaded};
ghost use Rattle.reports.specs.FaultLines.{fault_line};
ghost use Rattle.reports.specs.Report.{Prints};
ghost use Rattle.reports.specs.declared.exit_status.TheConstants as statuses;
ghost use Rattle.agent_main.specs.Commands.{Ran, around};
ghost use Rattle.agent_main.specs.Words.{serves_doors};

use crate::offline::run;
use crate::serve::serve;
use command_line::{Command, read_words};
use reports::exit_status::OUT_OF_MEMORY;
use std::alloc::Global;
use std::sync::Wait;
use std::thread::Threads;
use waf_io::{Clock, Door, Doors, Files, Gate, Sink, Source};
use waf_plain::{Bytes, NoMemory, Seq};

/// Does what the words ask for, `serve CONF` among them, and answers the exit status. All other commands are those of
/// `offline_main`.
pub fn agent_main<
    W: Threads + Wait + Sync,
    F: Files,
    S: Source,
    K: Sink,
    D: Doors,
    C: Clock + Sync,
    G: Gate + Sync,
>(
    rt: &W,
    alloc: Global,
    words: Seq<Bytes>,
    files: &mut F,
    input: &mut S,
    output: &mut K,
    doors: &mut D,
    clock: &C,
    gate: &G,
) -> u8
where
    D::D: Send,
    <D::D as Door>::In: Send,
    <D::D as Door>::Out: Send,
    ensures offline { serves_doors (command_of words) ≡ false → Ran (F.content files.old) (command_of words) result
        (around (S.left input.old) (S.ends input.old) (K.held output.old)
        (F.faults files.old) (S.faults input.old) (K.faults output.old))
        (around (S.left input.new) (S.ends input.new) (K.held output.new)
        (F.faults files.new) (S.faults input.new) (K.faults output.new)) }
    ensures refused { IfSome (F.content files.old) (λ told. (name : List ℕ) (fault : LoadFault)
        → command_of words ≡ Command.Serve name → loaded told name ≡ Err fault
        → Prints result statuses.REFUSED (fault_line name fault)
        (F.faults files.old) (F.faults files.new) (K.held output.old) (K.held output.new)
        × (S.left input.new ≡ S.left input.old)) }
    ensures out { D.out doors.new ≡ D.out doors.old }
    ensures read_fault { result ≡ statuses.READ_FAULT
        → Rose (F.faults files.old) (F.faults files.new) ⊎ Rose (S.faults input.old) (S.faults input.new) }
    ensures write_fault { result ≡ statuses.WRITE_FAULT → Rose (K.faults output.old) (K.faults output.new) }
    ensures door_fault { result ≡ statuses.DOOR_FAULT
        → (serves_doors (command_of words) ≡ true) × Rose (D.faults doors.old) (D.faults doors.new) }
{
    match read_words(alloc, words.as_slice()) {
        Ok(command) => perform(rt, alloc, command, files, input, output, doors, clock, gate),
        Err(NoMemory) => OUT_OF_MEMORY,
    }
}

// Does what a command asks for.
fn perform<
    W: Threads + Wait + Sync,
    F: Files,
    S: Source,
    K: Sink,
    D: Doors,
    C: Clock + Sync,
    G: Gate + Sync,
>(
    rt: &W,
    alloc: Global,
    command: Command,
    files: &mut F,
    input: &mut S,
    output: &mut K,
    doors: &mut D,
    clock: &C,
    gate: &G,
) -> u8
where
    D::D: Send,
    <D::D as Door>::In: Send,
    <D::D as Door>::Out: Send,
    ensures offline { serves_doors command ≡ false → Ran (F.content files.old) command result
        (around (S.left input.old) (S.ends input.old) (K.held output.old)
        (F.faults files.old) (S.faults input.old) (K.faults output.old))
        (around (S.left input.new) (S.ends input.new) (K.held output.new)
        (F.faults files.new) (S.faults input.new) (K.faults output.new)) }
    ensures refused { IfSome (F.content files.old) (λ told. (name : List ℕ) (fault : LoadFault)
        → command ≡ Command.Serve name → loaded told name ≡ Err fault
        → Prints result statuses.REFUSED (fault_line name fault)
        (F.faults files.old) (F.faults files.new) (K.held output.old) (K.held output.new)
        × (S.left input.new ≡ S.left input.old)) }
    ensures out { D.out doors.new ≡ D.out doors.old }
    ensures read_fault { result ≡ statuses.READ_FAULT
        → Rose (F.faults files.old) (F.faults files.new) ⊎ Rose (S.faults input.old) (S.faults input.new) }
    ensures write_fault { result ≡ statuses.WRITE_FAULT → Rose (K.faults output.old) (K.faults output.new) }
    ensures door_fault { result ≡ statuses.DOOR_FAULT
        → (serves_doors command ≡ true) × Rose (D.faults doors.old) (D.faults doors.new) }
{
    match conf_to_serve(command) {
        Ok(name) => serve(
            rt,
            alloc,
            name.as_slice(),
            files,
            input,
            output,
            doors,
            clock,
            gate,
        ),
        Err(command) => run(alloc, command, files, input, output),
    }
}

// The name of the configuration to serve under, or the command where it is another.
fn conf_to_serve(command: Command) -> Result<Bytes, Command>
    ensures ok { IfOk result (λ name. command ≡ Command.Serve name) }
    ensures err { IfErr result (λ other. (command ≡ other) × (serves_doors other ≡ false)) }
{
    match command {
        Command::Serve(name) => Ok(name),
        Command::Check(name) => Err(Command::Check(name)),
        Command::Once(name) => Err(Command::Once(name)),
        Command::Replay { plain, conf } => Err(Command::Replay { plain, conf }),
        Command::Generate { seed, count } => Err(Command::Generate { seed, count }),
        Command::Help => Err(Command::Help),
        Command::Version => Err(Command::Version),
        Command::Other => Err(Command::Other),
    }
}
