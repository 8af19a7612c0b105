//! Sleeping, and waking those that sleep. Nothing of it changes what a pass knows.
//!
//! At most `LONG_LINE` threads or so wait for their turn at a time, which keeps the lock busy. Others
//! sleep outside before they draw one, so that no end of a turn has to wake a thread that has to be
//! waited for. Whoever ends a turn with nobody behind lets in one of those that sleep outside; and so
//! does each of some turns, so that they are let in however busy the lock is.
ghost use Rattle.std.specs.Prelude.{◌≡◌, ◌<◌, ◌≤◌};

use crate::lock::{Pass, TurnLock};
use crate::object::Object;
use crate::plays::Still;
use std::sync::Wait;

// The words of the table after those that count turns: how often those outside were called in, how
// many sleep outside, and how many sleep in line.
const BELL: usize = 2;

const OUTSIDE: usize = 3;

const IN_LINE: usize = 4;

// The words count modulo 2^64.
const ONE_LESS: u64 = u64::MAX;

// Who finds so many turns out sleeps before it draws one.
const LONG_LINE: u64 = 4;

// One in so many turns lets one thread in, however long the line is.
const TURNS_A_RING: u64 = 32;

impl<O: Object> TurnLock<O> {
    // Sleeps once where the line is long. A bell that rings after the second look ends the sleep at
    // once, and the last turn of the line rings it after it has ended.
    pub(crate) fn wait_outside<W: Wait>(&self, rt: &W, pass: &mut Pass<O>)
        requires lock { pass.old.table_id ≡ self.now.table.shared.table_id }
        ensures same { pass.new ≡ pass.old }
    {
        if !self.is_long() {
            return;
        }
        self.count(pass, OUTSIDE, 1);
        let rung = self.table.shared.peek(BELL);
        if self.is_long() {
            self.table.shared.park(rt, BELL, low_half(rung));
        }
        self.count(pass, OUTSIDE, ONE_LESS);
    }

    // Whether many turns are out. Those that ended are read first, so that none is missed.
    fn is_long(&self) -> bool {
        let ended = self.table.shared.peek(1);
        let drawn = self.table.shared.peek(0);
        drawn.wrapping_sub(ended) >= LONG_LINE
    }

    // Sleeps until the turn that is under way has ended. It ends at once where it has.
    pub(crate) fn sleep_in_line<W: Wait>(&self, rt: &W, pass: &mut Pass<O>, serving: u64)
        requires lock { pass.old.table_id ≡ self.now.table.shared.table_id }
        ensures same { pass.new ≡ pass.old }
    {
        self.count(pass, IN_LINE, 1);
        self.table.shared.park(rt, 1, low_half(serving));
        self.count(pass, IN_LINE, ONE_LESS);
    }

    // Wakes who has to look again, after the end of a turn. Who counts itself as asleep after the
    // look at that count finds the turn ended.
    pub(crate) fn wake_sleepers(&self, pass: &mut Pass<O>, turn: u64)
        requires lock { pass.old.table_id ≡ self.now.table.shared.table_id }
        ensures same { pass.new ≡ pass.old }
    {
        if self.table.shared.peek(IN_LINE) > 0 {
            self.table.shared.wake_all(1);
        }
        let is_last = self.table.shared.peek(0) == turn.wrapping_add(1);
        if (is_last || turn % TURNS_A_RING == 0) && self.table.shared.peek(OUTSIDE) > 0 {
            self.count(pass, BELL, 1);
            self.table.shared.wake_one(BELL);
        }
    }

    // Adds to a word of which the rule of turns says nothing.
    fn count(&self, pass: &mut Pass<O>, word: usize, by: u64)
        requires lock { pass.old.table_id ≡ self.now.table.shared.table_id }
        requires word { 2 ≤ word × word < 5 }
        ensures same { pass.new ≡ pass.old }
    {
        self.table.shared.fetch_add::<Still>(pass, word, by);
    }
}

// What a thread that sleeps on a word compares.
fn low_half(word: u64) -> u32 {
    (word & 0xffff_ffff) as u32
}
