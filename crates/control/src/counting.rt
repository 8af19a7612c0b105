//! The rows of all shards.
ghost use Rattle.std.specs.Prelude.{◌≡◌, ◌≤◌, ◌<◌, ◌++◌, ◌∷◌, [], codes, decimal};
ghost use Rattle.hall.specs.Passes.{IsPassOfHall, shards_of};
ghost use Rattle.waf_io.specs.Counts.{Rose};
ghost use Rattle.turn_lock.specs.History.{entry};
ghost use Rattle.hall_core.specs.declared.calls.Call.{Call};
ghost use Rattle.hall_core.specs.declared.calls.Reply.{Reply};
ghost use Rattle.conn_worker.specs.Entries.{After, lists_of, shares_of};
ghost use Rattle.control.specs.Counting.{CountsAll, Stats, totals_text};
ghost use Rattle.control.specs.Written.{IsWritten};

use crate::parts::{write_number, write_text};
use hall::{HallPass, SharedHall};
use hall_core::Counts;
use std::sync::Wait;
use tx_core::Half;
use waf_io::{Sink, Wrote};

// The rows of several shards.
#[derive(Clone, Copy)]
pub struct Totals {
    pub running: u64,
    pub parked: u64,
}

// Counts the rows of the table, each shard in a turn of its own, and says how many they are.
pub fn stats<W: Wait, K: Sink>(
    rt: &W,
    output: &mut K,
    desk: &SharedHall<Half>,
    pass: &mut HallPass<Half>,
) -> Wrote
    requires desk { IsPassOfHall desk.now pass.old }
    ensures desk { IsPassOfHall desk.now pass.new }
    ensures shares { shares_of pass.new ≡ shares_of pass.old }
    ensures stats { Stats result (lists_of pass.old) (lists_of pass.new) (K.held output.old) (K.held output.new) }
    ensures later { K.faults output.old ≤ K.faults output.new }
    ensures cause { result ≡ Wrote.Failed → Rose (K.faults output.old) (K.faults output.new) }
{
    let totals = count_all(rt, desk, pass);
    tell(output, totals)
}

fn count_all<W: Wait>(rt: &W, desk: &SharedHall<Half>, pass: &mut HallPass<Half>) -> Totals
    requires desk { IsPassOfHall desk.now pass.old }
    ensures desk { IsPassOfHall desk.now pass.new }
    ensures shares { shares_of pass.new ≡ shares_of pass.old }
    ensures counts { CountsAll result (lists_of pass.old) (lists_of pass.new) }
{
    let mut totals = Totals {
        running: 0,
        parked: 0,
    };
    for shard in 0..desk.shards() {
        let counts = count(rt, desk, pass, shard);
        totals.running = totals.running.saturating_add(counts.running);
        totals.parked = totals.parked.saturating_add(counts.parked);
    }
    totals
}

// The rows of a shard.
fn count<W: Wait>(rt: &W, desk: &SharedHall<Half>, pass: &mut HallPass<Half>, shard: u32) -> Counts
    requires desk { IsPassOfHall desk.now pass.old }
    requires shard { shard < shards_of desk.now }
    ensures { After desk.now shard (entry Call.Count (Reply.OfCount result) ∷ []) pass.old pass.new }
{
    desk.counts(rt, pass, shard)
}

fn tell<K: Sink>(output: &mut K, totals: Totals) -> Wrote
    ensures written { IsWritten result (totals_text totals) (K.held output.old) (K.held output.new) }
    ensures later { K.faults output.old ≤ K.faults output.new }
    ensures cause { result ≡ Wrote.Failed → Rose (K.faults output.old) (K.faults output.new) }
{
    match write_number(output, b"stats running ", totals.running) {
        Wrote::All => tell_parked(output, totals.parked),
        Wrote::Failed => Wrote::Failed,
    }
}

fn tell_parked<K: Sink>(output: &mut K, parked: u64) -> Wrote
    ensures written { IsWritten result (codes " parked " ++ decimal parked ++ codes "\n")
        (K.held output.old) (K.held output.new) }
    ensures later { K.faults output.old ≤ K.faults output.new }
    ensures cause { result ≡ Wrote.Failed → Rose (K.faults output.old) (K.faults output.new) }
{
    match write_number(output, b" parked ", parked) {
        Wrote::All => write_text(output, b"\n"),
        Wrote::Failed => Wrote::Failed,
    }
}
