ghost use Rattle.std.specs.Prelude.{◌≡◌, ◌++◌, ◌∷◌, [], IfOk, OnErr, OnOk, codes, flat_map};
ghost use Rattle.std.specs.Fmt.{decimal};
ghost use Rattle.replay_text.specs.Results.{
  behind_space,
  closing_words,
  connection_text,
  digits_of,
  line,
  log_line,
  seen_text,
};

use crate::command::SPACE;
use crate::script::LINE_FEED;
use conn_core::{Closing, Seen};
use hall_core::Counts;
use sec_ast::LogLine;
use std::alloc::Global;
use waf_plain::{Bytes, NoMemory};

const HYPHEN: &[u8] = b"-";

/// Puts the lines of what a step showed behind a text: the connection of the step, where it has one,
/// and its shard, which `expired` and `notdue` name. Where there is no memory the text stays.
pub fn write_seen(
    alloc: Global,
    conn: Option<u32>,
    shard: u32,
    seen: &Seen,
    out: &mut Bytes,
) -> Result<(), NoMemory>
    ensures ok { OnOk result (out.new ≡ out.old ++ seen_text conn shard seen.now) }
    ensures err { OnErr result (out.new ≡ out.old) }
{
    let mut text = Bytes::new(alloc);
    add_seen(alloc, conn, shard, seen, &mut text)?;
    out.append(text.as_slice())
}

fn add_seen(
    alloc: Global,
    conn: Option<u32>,
    shard: u32,
    seen: &Seen,
    text: &mut Bytes,
) -> Result<(), NoMemory>
    ensures { OnOk result (text.new ≡ text.old ++ seen_text conn shard seen.now) }
{
    match seen {
        Seen::Nothing => Ok(()),
        Seen::Lines(lines) => add_logs(alloc, conn, lines.as_slice(), text),
        Seen::Out(bytes) => add_out(alloc, conn, bytes.as_slice(), text),
        Seen::Closed(how) => add_closed(conn, *how, text),
        Seen::Expired { ticket, lines } => {
            add_expired(shard, *ticket, text)?;
            add_logs(alloc, None, lines.as_slice(), text)
        }
        Seen::NothingDue => add_one_number(b"notdue", u64::from(shard), text),
        Seen::Published(generation) => add_one_number(b"published", *generation, text),
        Seen::Worn => text.append(b"worn\n"),
        Seen::Counts(counts) => add_counts(*counts, text),
    }
}

fn add_logs(
    alloc: Global,
    conn: Option<u32>,
    logs: &[LogLine],
    text: &mut Bytes,
) -> Result<(), NoMemory>
    ensures { OnOk result (text.new ≡ text.old ++ flat_map (log_line conn) logs.now) }
{
    for log in logs {
        add_log(alloc, conn, log, text)?;
    }
    Ok(())
}

fn add_log(
    alloc: Global,
    conn: Option<u32>,
    log: &LogLine,
    text: &mut Bytes,
) -> Result<(), NoMemory>
    ensures { OnOk result (text.new ≡ text.old ++ log_line conn log.now) }
{
    text.append(b"log")?;
    add_connection(conn, text)?;
    add_number(u64::from(log.rule), text)?;
    add_bytes(alloc, log.msg.as_slice(), text)?;
    add_bytes(alloc, log.detail.as_slice(), text)?;
    text.push(LINE_FEED)
}

fn add_out(alloc: Global, conn: Option<u32>, bytes: &[u8], text: &mut Bytes) -> Result<(), NoMemory>
    ensures { OnOk result (text.new
        ≡ text.old ++ line (codes "out") (connection_text conn ∷ digits_of bytes.now ∷ [])) }
{
    text.append(b"out")?;
    add_connection(conn, text)?;
    add_bytes(alloc, bytes, text)?;
    text.push(LINE_FEED)
}

fn add_closed(conn: Option<u32>, how: Closing, text: &mut Bytes) -> Result<(), NoMemory>
    ensures { OnOk result (text.new ≡ text.old ++ line (codes "closed") (connection_text conn ∷ closing_words how)) }
{
    text.append(b"closed")?;
    add_connection(conn, text)?;
    add_closing(how, text)?;
    text.push(LINE_FEED)
}

fn add_closing(how: Closing, text: &mut Bytes) -> Result<(), NoMemory>
    ensures { OnOk result (text.new ≡ text.old ++ flat_map behind_space (closing_words how)) }
{
    match how {
        Closing::Done => add_word(b"done", text),
        Closing::CutShort => add_word(b"cut", text),
        Closing::Ended(status) => {
            add_word(b"status", text)?;
            add_number(u64::from(status), text)
        }
        Closing::ReadFault => add_word(b"readfault", text),
        Closing::WriteFault => add_word(b"writefault", text),
        Closing::Spent => add_word(b"spent", text),
    }
}

fn add_expired(shard: u32, ticket: u64, text: &mut Bytes) -> Result<(), NoMemory>
    ensures { OnOk result (text.new ≡ text.old ++ line (codes "expired") (decimal shard ∷ decimal ticket ∷ [])) }
{
    text.append(b"expired")?;
    add_number(u64::from(shard), text)?;
    add_number(ticket, text)?;
    text.push(LINE_FEED)
}

fn add_one_number(name: &[u8], number: u64, text: &mut Bytes) -> Result<(), NoMemory>
    ensures { OnOk result (text.new ≡ text.old ++ line name.now (decimal number ∷ [])) }
{
    text.append(name)?;
    add_number(number, text)?;
    text.push(LINE_FEED)
}

fn add_counts(counts: Counts, text: &mut Bytes) -> Result<(), NoMemory>
    ensures { OnOk result (text.new
        ≡ text.old ++ line (codes "stats")
        (codes "running" ∷ decimal counts.running ∷ codes "parked" ∷ decimal counts.parked ∷ [])) }
{
    text.append(b"stats")?;
    add_count(b"running", counts.running, text)?;
    add_count(b"parked", counts.parked, text)?;
    text.push(LINE_FEED)
}

fn add_count(name: &[u8], count: u64, text: &mut Bytes) -> Result<(), NoMemory>
    ensures { OnOk result (text.new ≡ text.old ++ behind_space name.now ++ behind_space (decimal count)) }
{
    add_word(name, text)?;
    add_number(count, text)
}

fn add_connection(conn: Option<u32>, text: &mut Bytes) -> Result<(), NoMemory>
    ensures { OnOk result (text.new ≡ text.old ++ behind_space (connection_text conn)) }
{
    match conn {
        Some(conn) => add_number(u64::from(conn), text),
        None => add_word(HYPHEN, text),
    }
}

fn add_number(number: u64, text: &mut Bytes) -> Result<(), NoMemory>
    ensures { OnOk result (text.new ≡ text.old ++ behind_space (decimal number)) }
{
    let mut buffer = itoa::Buffer::new();
    add_word(buffer.format(number).as_bytes(), text)
}

fn add_bytes(alloc: Global, bytes: &[u8], text: &mut Bytes) -> Result<(), NoMemory>
    ensures { OnOk result (text.new ≡ text.old ++ behind_space (digits_of bytes.now)) }
{
    if bytes.is_empty() {
        return add_word(HYPHEN, text);
    }
    let digits = hex::encode(alloc, bytes)?;
    add_word(digits.as_bytes(), text)
}

fn add_word(word: &[u8], text: &mut Bytes) -> Result<(), NoMemory>
    ensures { OnOk result (text.new ≡ text.old ++ behind_space word.now) }
{
    text.push(SPACE)?;
    text.append(word)
}
