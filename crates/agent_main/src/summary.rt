ghost use Rattle.std.specs.Prelude.{◌≡◌, ◌++◌, IfOk, OnOk, count_by, ◌==◌};
ghost use Rattle.agent_main.specs.Summary.{
  count_line,
  expired_in,
  lines_in,
  logged_in,
  sum_of,
  summary,
  written_in,
};

use crate::entry::{Entry, Shown};
use crate::generate::{PASSED_RULE, REQUEST_RULE, RESPONSE_RULE};
use conn_core::Seen;
use sec_ast::LogLine;
use std::alloc::Global;
use waf_plain::{Bytes, NoMemory};
use workload::CONNECTIONS;

// The counts of what a run over so many transactions showed.
#[tactic(auto, unfolding(crate::specs::Summary::summary))]
pub fn summary(alloc: Global, count: u32, entries: &[Entry]) -> Result<Bytes, NoMemory>
    ensures { IfOk result (λ text. text ≡ summary count entries.now) }
{
    let count = u64::from(count);
    let not_parked = count.saturating_sub(logged(entries, PASSED_RULE));
    let acks = written(entries).saturating_sub(CONNECTIONS);
    let mut text = Bytes::new(alloc);
    add_count(b"transactions", count, &mut text)?;
    add_count(b"requests denied", logged(entries, REQUEST_RULE), &mut text)?;
    add_count(
        b"responses denied",
        logged(entries, RESPONSE_RULE),
        &mut text,
    )?;
    add_count(b"not parked", not_parked, &mut text)?;
    add_count(b"expired", expired(entries), &mut text)?;
    add_count(b"acks", acks, &mut text)?;
    Ok(text)
}

fn add_count(name: &[u8], count: u64, text: &mut Bytes) -> Result<(), NoMemory>
    ensures { OnOk result (text.new ≡ text.old ++ count_line name.now count) }
{
    text.append(name)?;
    text.append(b" ")?;
    let mut buffer = itoa::Buffer::new();
    text.append(buffer.format(count).as_bytes())?;
    text.append(b"\n")
}

// How many lines of a rule were logged.
#[tactic(auto, unfolding(crate::specs::Summary::sum_of))]
fn logged(entries: &[Entry], rule: u32) -> u64
    ensures { result ≡ sum_of (logged_in rule) entries.now }
{
    let mut sum = 0u64;
    for entry in entries {
        sum = sum.saturating_add(logged_in(entry, rule));
    }
    sum
}

// How many requests expired.
#[tactic(auto, unfolding(crate::specs::Summary::sum_of))]
fn expired(entries: &[Entry]) -> u64
    ensures { result ≡ sum_of expired_in entries.now }
{
    let mut sum = 0u64;
    for entry in entries {
        sum = sum.saturating_add(expired_in(entry));
    }
    sum
}

// How many frames were written.
#[tactic(auto, unfolding(crate::specs::Summary::sum_of))]
fn written(entries: &[Entry]) -> u64
    ensures { result ≡ sum_of written_in entries.now }
{
    let mut sum = 0u64;
    for entry in entries {
        sum = sum.saturating_add(written_in(entry));
    }
    sum
}

#[tactic(auto, unfolding(crate::specs::Summary::logged_in))]
fn logged_in(entry: &Entry, rule: u32) -> u64
    ensures { result ≡ logged_in rule entry.now }
{
    count_of(lines_in(&entry.shown), rule) as u64
}

fn count_of(lines: &[LogLine], rule: u32) -> usize
    ensures { result ≡ count_by (λ line. line.rule == rule) lines.now }
{
    lines.iter().filter(|line| line.rule == rule).count()
}

fn lines_in(shown: &Shown) -> &[LogLine]
    ensures { result.now ≡ lines_in shown.now }
{
    match shown {
        Shown::Step(Seen::Lines(lines)) => lines.as_slice(),
        Shown::Step(Seen::Expired { lines, .. }) => lines.as_slice(),
        _ => &[],
    }
}

#[tactic(auto, unfolding(crate::specs::Summary::expired_in))]
fn expired_in(entry: &Entry) -> u64
    ensures { result ≡ expired_in entry.now }
{
    match &entry.shown {
        Shown::Step(Seen::Expired { .. }) => 1,
        _ => 0,
    }
}

#[tactic(auto, unfolding(crate::specs::Summary::written_in))]
fn written_in(entry: &Entry) -> u64
    ensures { result ≡ written_in entry.now }
{
    match &entry.shown {
        Shown::Step(Seen::Out(_)) => 1,
        _ => 0,
    }
}
