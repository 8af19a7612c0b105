ghost use Rattle.std.specs.Prelude.{◌≡◌, ◌≢◌, ◌<◌, ◌^◌, ◌++◌, ◌∷◌, [], IfOk, IfSome, List, length};
ghost use Rattle.replay_text.specs.Commands.{IsBounded};
ghost use Rattle.replay_text.specs.declared.script.ScriptFault.TheVariants as script_faults;
ghost use Rattle.replay_text.specs.Opened.{Flags};
ghost use Rattle.replay_text.specs.Script.{Reads, is_in_order, lines_of, next, opened_by, script};

use crate::command::{Command, command_of};
use crate::opened::Opened;
use std::alloc::Global;
use waf_plain::{NoMemory, Seq};
use web_parts::cut;

/// Why a script is refused.
#[derive(Clone, Copy, Debug, PartialEq, Eq)]
pub enum ScriptFault {
    /// A line, counted from 1, is no command, or opens a connection twice, or names one that was
    /// not opened before.
    Bad { line: u32 },
    NoMemory,
}

impl From<NoMemory> for ScriptFault {
    ghost from_gives = { λ _ e. e ≡ script_faults.NoMemory };

    fn from(_: NoMemory) -> ScriptFault {
        ScriptFault::NoMemory
    }
}

pub(crate) const LINE_FEED: u8 = b'\n';

/// The commands of a script, one of each line. A line feed ends each line, the last also the end of
/// the text; words are parted by one space, and a number is decimal digits without a sign or a leading
/// zero. Bytes are pairs of hexadecimal digits in either case, or `-` where there are none.
///
/// Bad comes exactly where a line is no command or out of order, with the number of the first such line.
pub fn read_script(alloc: Global, text: &[u8]) -> Result<Seq<Command>, ScriptFault>
    requires { length text.now < 2 ^ 31 }
    ensures { Reads result (script text.now) }
{
    let mut opened = Opened::new(alloc)?;
    let mut commands = Seq::new(alloc);
    let mut rest = text;
    while !rest.is_empty() {
        let (line, behind) = split_line(rest);
        match next_command(alloc, &opened, line)? {
            None => {
                return Err(ScriptFault::Bad {
                    line: commands.len() as u32 + 1,
                });
            }
            Some(command) => {
                note(&mut opened, &command);
                commands.push(command)?;
            }
        }
        rest = behind;
    }
    Ok(commands)
}

// The first line of a text that is not empty, and what stands behind its line feed.
fn split_line(text: &[u8]) -> (&[u8], &[u8])
    ensures first { text.now ≢ [] → lines_of text.now ≡ result.0.now ∷ lines_of result.1.now }
    ensures shorter { text.now ≢ [] → length result.1.now < length text.now }
{
    let (line, behind) = cut(text, LINE_FEED);
    match behind {
        Some(behind) => (line, behind),
        None => (line, &[]),
    }
}

fn next_command(alloc: Global, opened: &Opened, line: &[u8]) -> Result<Option<Command>, NoMemory>
    ensures next { IfOk result
        (λ read. (past : List Command) → Flags opened.now (opened_by past) → read ≡ next past line.now) }
    ensures bounded { IfOk result (λ read. IfSome read IsBounded) }
{
    let Some(command) = command_of(alloc, line)? else {
        return Ok(None);
    };
    if is_in_order(opened, &command) {
        Ok(Some(command))
    } else {
        Ok(None)
    }
}

fn is_in_order(opened: &Opened, command: &Command) -> bool
    ensures { (past : List Command) → Flags opened.now (opened_by past) → result ≡ is_in_order past command.now }
{
    match command {
        Command::Open(conn) => !opened.has(*conn),
        Command::Feed(conn, _) => opened.has(*conn),
        Command::End(conn) => opened.has(*conn),
        Command::Act(conn) => opened.has(*conn),
        Command::Tick(_) | Command::Expire(_) | Command::Reload | Command::Stats => true,
    }
}

fn note(opened: &mut Opened, command: &Command)
    requires { IsBounded command.now }
    ensures { (past : List Command) → Flags opened.old (opened_by past)
        → Flags opened.new (opened_by (past ++ command.now ∷ [])) }
{
    if let Command::Open(conn) = command {
        opened.note(*conn);
    }
}
