ghost use Rattle.std.specs.Prelude.{◌≡◌, ◌≢◌, ◌⊎◌, ◌<◌, [], Err, IfOk, IfSome};
ghost use Rattle.replay_text.specs.Playable.{IsPlayable};
ghost use Rattle.waf_io.specs.Counts.{Rose};
ghost use Rattle.agent_conf.specs.declared.load_fault.LoadFault.{LoadFault};
ghost use Rattle.agent_conf.specs.Loading.{loaded};
ghost use Rattle.reports.specs.declared.exit_status.TheConstants.{DOOR_FAULT, OTHER_WORDS, READ_FAULT, UNFINISHED, WRITE_FAULT};
ghost use Rattle.reports.specs.declared.faults.CommandFault.TheVariants as faults;
ghost use Rattle.agent_main.specs.Playing.{TellsText};
ghost use Rattle.agent_main.specs.Replay.{Replayed};
ghost use Rattle.reports.specs.Report.{ReadFails};
ghost use Rattle.agent_main.specs.Turns.{Plays, limits_of};

use crate::entry::{Entry, entries_text};
use crate::playing::{Limits, played};
use crate::script::commands_of;
use agent_conf::{Conf, load};
use replay_text::Command;
use reports::exit_status::{DONE, OUT_OF_MEMORY, READ_FAULT, REFUSED};
use reports::{CommandFault, command_fault, report};
use shelf::Apps;
use std::alloc::Global;
use waf_io::{Files, Sink, Source};
use waf_plain::{Bytes, NoMemory, Seq};
use world_core::{Halves, Handle, Slowly};

// Prints what a run over the script of the input shows, under the configuration of that name, whether the
// slow functions judge it or not.
pub fn replay<F: Files, S: Source, K: Sink>(
    alloc: Global,
    plain: bool,
    name: &[u8],
    files: &mut F,
    input: &mut S,
    output: &mut K,
) -> u8
    ensures other { (result ≢ UNFINISHED) × (result ≢ OTHER_WORDS) × (result ≢ DOOR_FAULT) }
    ensures replayed { IfSome (S.left input.old) (λ text.
        Replayed (F.content files.old) name.now (F.faults files.old) (F.faults files.new) result text
        (K.held output.old) (K.held output.new)
        ⊎ (ReadFails result (F.faults files.old) (F.faults files.new) (K.held output.old) (K.held output.new)
        ⊎ ReadFails result (S.faults input.old) (S.faults input.new) (K.held output.old) (K.held output.new))) }
    ensures unloaded { IfSome (F.content files.old) (λ told. (fault : LoadFault) → loaded told name.now ≡ Err fault
        → S.left input.new ≡ S.left input.old) }
    ensures read_fault { result ≡ READ_FAULT
        → Rose (F.faults files.old) (F.faults files.new) ⊎ Rose (S.faults input.old) (S.faults input.new) }
    ensures write_fault { result ≡ WRITE_FAULT → Rose (K.faults output.old) (K.faults output.new) }
{
    match results(alloc, plain, name, files, input) {
        Ok(text) => report(output, text.as_slice(), DONE),
        Err(CommandFault::Line(line)) => report(output, line.as_slice(), REFUSED),
        Err(CommandFault::ReadFault) => READ_FAULT,
        Err(CommandFault::NoMemory) => OUT_OF_MEMORY,
    }
}

// The text that is printed.
fn results<F: Files, S: Source>(
    alloc: Global,
    plain: bool,
    name: &[u8],
    files: &mut F,
    input: &mut S,
) -> Result<Bytes, CommandFault>
    ensures told { IfSome (S.left input.old) (λ text.
        TellsText (F.content files.old) name.now (F.faults files.old) (F.faults files.new) text result) }
    ensures unloaded { IfSome (F.content files.old) (λ told. (fault : LoadFault) → loaded told name.now ≡ Err fault
        → S.left input.new ≡ S.left input.old) }
    ensures cause { result ≡ Err faults.ReadFault
        → Rose (F.faults files.old) (F.faults files.new) ⊎ Rose (S.faults input.old) (S.faults input.new) }
{
    match load(alloc, name, files) {
        Ok((conf, apps)) => {
            let commands = commands_of(alloc, conf.shards, input)?;
            let limits = limits_of(&conf);
            let commands = commands.as_slice();
            let entries = shown(alloc, plain, name, files, limits, apps, commands)?;
            Ok(entries_text(alloc, name, entries.as_slice())?)
        }
        Err(fault) => Err(command_fault(alloc, name, fault)),
    }
}

// What a run over these commands shows, judged by the slow functions where it is `plain`.
fn shown<F: Files>(
    alloc: Global,
    plain: bool,
    name: &[u8],
    files: &mut F,
    limits: Limits,
    apps: Apps<Handle>,
    commands: &[Command],
) -> Result<Seq<Entry>, NoMemory>
    requires shards { 0 < limits.shards }
    requires playable { IsPlayable limits.shards [] commands.now }
    ensures { IfOk result
        (Plays (F.content files.old) name.now (F.faults files.old) (F.faults files.new) limits apps commands.now) }
{
    if plain {
        played(alloc, Slowly {}, name, files, limits, apps, commands)
    } else {
        played(alloc, Halves {}, name, files, limits, apps, commands)
    }
}

fn limits_of(conf: &Conf) -> Limits
    ensures { result ≡ limits_of conf.now }
{
    Limits {
        size: conf.size,
        shards: conf.shards,
        capacity: conf.capacity,
    }
}
