use case_text::{Answer, items, number, small_number, word_at};
use conn_core::{Closing, Seen};
use hall_core::Counts;
use replay_text::write_seen;
use sec_ast::LogLine;
use std::alloc::Global;
use waf_plain::{Bytes, NoMemory, Seq};

/// `CONN SHARD NAME ITEMS`, then the text of what a step showed. CONN is a number or `-`, and ITEMS are
/// parted by bars: a log line has three, its rule, message and data.
pub fn answer(alloc: Global, given: &[Bytes], out: &mut Answer) {
    let [conn, shard, name, words] = given else {
        return out.malformed();
    };
    let Some(shard) = small_number(shard.as_slice()) else {
        return out.malformed();
    };
    let conn = small_number(conn.as_slice());
    match seen_of(alloc, name.as_slice(), words.as_slice()) {
        Ok(Some(seen)) => put_text(alloc, conn, shard, &seen, out),
        Ok(None) => out.malformed(),
        Err(NoMemory) => out.no_memory(),
    }
}

fn put_text(alloc: Global, conn: Option<u32>, shard: u32, seen: &Seen, out: &mut Answer) {
    let mut text = Bytes::new(alloc);
    match write_seen(alloc, conn, shard, seen, &mut text) {
        Ok(()) => out.quoted(text.as_slice()),
        Err(NoMemory) => out.no_memory(),
    }
}

fn seen_of(alloc: Global, name: &[u8], words: &[u8]) -> Result<Option<Seen>, NoMemory> {
    let words = items(alloc, words, b'|')?;
    let words = words.as_slice();
    match name {
        b"nothing" => Ok(Some(Seen::Nothing)),
        b"lines" => lines_seen(alloc, words),
        b"out" => Ok(Some(Seen::Out(Bytes::copy(alloc, word_at(words, 0))?))),
        b"closed" => Ok(closing_of(words).map(Seen::Closed)),
        b"expired" => expired_seen(alloc, words),
        b"notdue" => Ok(Some(Seen::NothingDue)),
        b"published" => Ok(number(word_at(words, 0)).map(Seen::Published)),
        b"worn" => Ok(Some(Seen::Worn)),
        b"counts" => Ok(counts_seen(words)),
        _ => Ok(None),
    }
}

fn lines_seen(alloc: Global, words: &[Bytes]) -> Result<Option<Seen>, NoMemory> {
    Ok(Some(Seen::Lines(log_lines(alloc, words)?)))
}

fn expired_seen(alloc: Global, words: &[Bytes]) -> Result<Option<Seen>, NoMemory> {
    let [ticket, words @ ..] = words else {
        return Ok(None);
    };
    let Some(ticket) = number(ticket.as_slice()) else {
        return Ok(None);
    };
    let lines = log_lines(alloc, words)?;
    Ok(Some(Seen::Expired { ticket, lines }))
}

// Three words each: the rule, the message and the data.
fn log_lines(alloc: Global, words: &[Bytes]) -> Result<Seq<LogLine>, NoMemory> {
    let mut lines = Seq::new(alloc);
    let mut rest = words;
    while let [rule, msg, detail, behind @ ..] = rest {
        lines.push(log_line(rule.as_slice(), msg, detail)?)?;
        rest = behind;
    }
    Ok(lines)
}

fn log_line(rule: &[u8], msg: &Bytes, detail: &Bytes) -> Result<LogLine, NoMemory> {
    let msg = msg.clone()?;
    let detail = detail.clone()?;
    Ok(LogLine {
        rule: small_number(rule).unwrap_or(0),
        msg,
        detail,
    })
}

fn closing_of(words: &[Bytes]) -> Option<Closing> {
    match word_at(words, 0) {
        b"done" => Some(Closing::Done),
        b"cut" => Some(Closing::CutShort),
        b"status" => small_number(word_at(words, 1)).map(Closing::Ended),
        b"readfault" => Some(Closing::ReadFault),
        b"writefault" => Some(Closing::WriteFault),
        b"spent" => Some(Closing::Spent),
        _ => None,
    }
}

fn counts_seen(words: &[Bytes]) -> Option<Seen> {
    let running = number(word_at(words, 0))?;
    let parked = number(word_at(words, 1))?;
    Some(Seen::Counts(Counts { running, parked }))
}
