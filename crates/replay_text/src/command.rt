ghost use Rattle.std.specs.Prelude.{◌≡◌, ◌≤◌, IfOk, IfSome};
ghost use Rattle.replay_text.specs.declared.command.TheConstants.{LAST_CONNECTION};
ghost use Rattle.replay_text.specs.Commands.{IsBounded, alone, bytes_of, command_of, connection_in, fed, one_of};

use crate::numbers::read_number;
use hex::FromHexError;
use std::alloc::Global;
use waf_plain::{Bytes, NoMemory};
use web_parts::cut;

pub(crate) const SPACE: u8 = b' ';

// The greatest number of a connection.
pub(crate) const LAST_CONNECTION: u64 = 4095;

// The greatest number of a shard.
const LAST_SHARD: u64 = 63;

// By how much the clock goes on at most in one command.
const MOST_UNITS: u64 = u64::MAX;

/// One line of a script.
#[derive(Debug, PartialEq, Eq, Drop)]
pub enum Command {
    /// A connection is opened.
    Open(u32),
    /// HAProxy sends these bytes on a connection.
    Feed(u32, Bytes),
    /// HAProxy ends its side of a connection.
    End(u32),
    /// A connection meets its next need.
    Act(u32),
    /// The clock goes on by so many units.
    Tick(u64),
    /// A shard lets go of what is due longest.
    Expire(u32),
    /// The configuration is loaded again.
    Reload,
    /// How many transactions run, and how many are parked.
    Stats,
}

// The command that a line is, where it is one.
pub(crate) fn command_of(alloc: Global, line: &[u8]) -> Result<Option<Command>, NoMemory>
    ensures command { IfOk result (λ read. read ≡ command_of line.now) }
    ensures bounded { IfOk result (λ read. IfSome read IsBounded) }
{
    let (name, words) = cut(line, SPACE);
    match words {
        None => Ok(lone_command(name)),
        Some(words) if name == b"feed".as_slice() => feed_of(alloc, words),
        Some(words) => Ok(number_command(name, words)),
    }
}

// A command of its name alone.
fn lone_command(name: &[u8]) -> Option<Command>
    ensures command { result ≡ alone name.now }
    ensures bounded { IfSome result IsBounded }
{
    if name == b"reload".as_slice() {
        Some(Command::Reload)
    } else if name == b"stats".as_slice() {
        Some(Command::Stats)
    } else {
        None
    }
}

// A command of one number.
fn number_command(name: &[u8], word: &[u8]) -> Option<Command>
    ensures command { result ≡ one_of name.now word.now }
    ensures bounded { IfSome result IsBounded }
{
    if name == b"open".as_slice() {
        Some(Command::Open(connection(word)?))
    } else if name == b"end".as_slice() {
        Some(Command::End(connection(word)?))
    } else if name == b"act".as_slice() {
        Some(Command::Act(connection(word)?))
    } else if name == b"tick".as_slice() {
        Some(Command::Tick(read_number(word, MOST_UNITS)?))
    } else if name == b"expire".as_slice() {
        Some(Command::Expire(read_number(word, LAST_SHARD)? as u32))
    } else {
        None
    }
}

fn connection(word: &[u8]) -> Option<u32>
    ensures number { result ≡ connection_in word.now }
    ensures bounded { IfSome result (λ conn. conn ≤ LAST_CONNECTION) }
{
    Some(read_number(word, LAST_CONNECTION)? as u32)
}

fn feed_of(alloc: Global, words: &[u8]) -> Result<Option<Command>, NoMemory>
    ensures command { IfOk result (λ read. read ≡ fed words.now) }
    ensures bounded { IfOk result (λ read. IfSome read IsBounded) }
{
    let (word, digits) = cut(words, SPACE);
    let (Some(conn), Some(digits)) = (connection(word), digits) else {
        return Ok(None);
    };
    let Some(bytes) = read_bytes(alloc, digits)? else {
        return Ok(None);
    };
    Ok(Some(Command::Feed(conn, bytes)))
}

// Pairs of hexadecimal digits, or a hyphen for no bytes.
fn read_bytes(alloc: Global, digits: &[u8]) -> Result<Option<Bytes>, NoMemory>
    ensures { IfOk result (λ read. read ≡ bytes_of digits.now) }
{
    match digits {
        [] => Ok(None),
        [b'-'] => Ok(Some(Bytes::new(alloc))),
        _ => match hex::decode(alloc, digits) {
            Ok(bytes) => Ok(Some(Bytes::from_vec(bytes))),
            Err(FromHexError::OutOfMemory) => Err(NoMemory),
            Err(_) => Ok(None),
        },
    }
}
