use case_text::Answer;
use replay_text::{Command, ScriptFault, read_script};
use std::alloc::Global;
use waf_plain::Bytes;

// A longer text is no case.
const LONGEST: usize = 0x8000_0000;

/// `SCRIPT`, then its commands, or `bad` and the number of the first bad line.
pub fn answer(alloc: Global, given: &[Bytes], out: &mut Answer) {
    match given {
        [text] => script(alloc, text.as_slice(), out),
        _ => out.malformed(),
    }
}

fn script(alloc: Global, text: &[u8], out: &mut Answer) {
    if text.len() >= LONGEST {
        return out.malformed();
    }
    match read_script(alloc, text) {
        Ok(commands) => put_commands(commands.as_slice(), out),
        Err(ScriptFault::Bad { line }) => out.named_number(b"bad", u64::from(line)),
        Err(ScriptFault::NoMemory) => out.no_memory(),
    }
}

fn put_commands(commands: &[Command], out: &mut Answer) {
    for command in commands {
        put_command(command, out);
    }
}

fn put_command(command: &Command, out: &mut Answer) {
    match command {
        Command::Open(conn) => out.named_number(b"open", u64::from(*conn)),
        Command::Feed(conn, bytes) => {
            out.named_number(b"feed", u64::from(*conn));
            out.quoted(bytes.as_slice())
        }
        Command::End(conn) => out.named_number(b"end", u64::from(*conn)),
        Command::Act(conn) => out.named_number(b"act", u64::from(*conn)),
        Command::Tick(units) => out.named_number(b"tick", *units),
        Command::Expire(shard) => out.named_number(b"expire", u64::from(*shard)),
        Command::Reload => out.plain(b"reload"),
        Command::Stats => out.plain(b"stats"),
    }
}
