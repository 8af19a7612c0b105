ghost use Rattle.std.specs.Prelude.{◌≡◌, ◌≢◌, ◌≤◌, [], Err, IfOk, IfSome, length, not, position};
ghost use Rattle.waf_io.specs.Counts.{Rose};
ghost use Rattle.reports.specs.declared.faults.CommandFault.TheVariants as faults;
ghost use Rattle.reports.specs.CommandFaults.{Tells};
ghost use Rattle.agent_main.specs.Playing.{IsBadLine, Takes};
ghost use Rattle.agent_main.specs.Replay.{for_shards, in_script, known, script_in, script_line};
ghost use Rattle.replay_text.specs.Playable.{IsPlayable, names_shard};

use replay_text::{Command, ScriptFault, read_script};
use reports::CommandFault;
use std::alloc::Global;
use waf_io::{Got, Source};
use waf_plain::{Bytes, NoMemory, Seq};

// The most bytes of a script: 64 MiB.
pub const SCRIPT_LIMIT: usize = 67108864;

// So many bytes are asked of the input at once.
const PIECE_SIZE: usize = 4096;

// The commands of the input, for so many shards, or the line of the first fault.
pub fn commands_of<S: Source>(
    alloc: Global,
    shards: u32,
    input: &mut S,
) -> Result<Seq<Command>, CommandFault>
    ensures told { IfSome (S.left input.old) (λ text. Tells result (in_script (script_in shards text))) }
    ensures playable { IfOk result (IsPlayable shards []) }
    ensures cause { result ≡ Err faults.ReadFault → Rose (S.faults input.old) (S.faults input.new) }
{
    match take(alloc, input)? {
        Some(text) => commands_in(alloc, shards, text.as_slice()),
        None => Err(bad_line(alloc, 1)),
    }
}

// The bytes of the input up to its end, where they are not too many.
fn take<S: Source>(alloc: Global, input: &mut S) -> Result<Option<Bytes>, CommandFault>
    ensures told { IfSome (S.left input.old) (λ text. Takes result text) }
    ensures few { IfOk result (λ taken. IfSome taken (λ text. length text ≤ SCRIPT_LIMIT)) }
    ensures cause { result ≡ Err faults.ReadFault → Rose (S.faults input.old) (S.faults input.new) }
{
    let mut text = Bytes::new(alloc);
    let mut buffer = [0u8; PIECE_SIZE];
    while text.len() <= SCRIPT_LIMIT {
        match input.read(&mut buffer) {
            Got::Bytes(count) => text.append(buffer.split_at(count as usize).0)?,
            Got::End => return Ok(Some(text)),
            Got::Failed => return Err(CommandFault::ReadFault),
        }
    }
    Ok(None)
}

fn commands_in(alloc: Global, shards: u32, text: &[u8]) -> Result<Seq<Command>, CommandFault>
    requires { length text.now ≤ SCRIPT_LIMIT }
    ensures told { Tells result (in_script (for_shards shards text.now)) }
    ensures playable { IfOk result (IsPlayable shards []) }
    ensures no_read { result ≢ Err faults.ReadFault }
{
    match read_script(alloc, text) {
        Ok(commands) => known(alloc, shards, commands),
        Err(ScriptFault::Bad { line }) => Err(bad_line(alloc, u64::from(line))),
        Err(ScriptFault::NoMemory) => Err(CommandFault::NoMemory),
    }
}

// The commands, where there is each shard that they name.
fn known(alloc: Global, shards: u32, commands: Seq<Command>) -> Result<Seq<Command>, CommandFault>
    ensures told { Tells result (in_script (known shards commands)) }
    ensures no_read { result ≢ Err faults.ReadFault }
{
    match first_unknown(shards, commands.as_slice()) {
        Some(place) => Err(bad_line(alloc, place as u64 + 1)),
        None => Ok(commands),
    }
}

// The place of the first that names a shard which there is not.
fn first_unknown(shards: u32, commands: &[Command]) -> Option<usize>
    ensures { result ≡ position (λ c. not (names_shard shards c)) commands.now }
{
    commands
        .iter()
        .position(|command| !names_shard(shards, command))
}

fn names_shard(shards: u32, command: &Command) -> bool
    ensures { result ≡ names_shard shards command.now }
{
    match command {
        Command::Expire(shard) => *shard < shards,
        _ => true,
    }
}

// The line of a fault at this line of the script.
fn bad_line(alloc: Global, line: u64) -> CommandFault
    ensures { IsBadLine result line }
{
    match script_line(alloc, line) {
        Ok(line) => CommandFault::Line(line),
        Err(NoMemory) => CommandFault::NoMemory,
    }
}

fn script_line(alloc: Global, line: u64) -> Result<Bytes, NoMemory>
    ensures { IfOk result (λ text. text ≡ script_line line) }
{
    let mut text = Bytes::copy(alloc, b"input:")?;
    let mut buffer = itoa::Buffer::new();
    text.append(buffer.format(line).as_bytes())?;
    text.append(b": Bad\n")?;
    Ok(text)
}
