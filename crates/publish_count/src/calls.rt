//! The steps that count and the one that reads. None of them waits.
ghost use Rattle.std.specs.Prelude.{◌≡◌, ◌+◌, ◌<◌};
ghost use Rattle.turn_lock.specs.View.{all_shares};
ghost use Rattle.publish_count.specs.Count.{IsTallyOf, count_of, counted, share_of};

use crate::count::{PublishCount, Tally};
use crate::plays::{Add, Glance, TakeBack};

impl PublishCount {
    /// Counts one publish more, before it is made. After 2^64 - 1 comes 0.
    pub fn add(&self, tally: &mut Tally)
        requires count { IsTallyOf self.now tally.old }
        ensures count { IsTallyOf self.now tally.new }
        ensures added { count_of tally.new ≡ count_of tally.old + 1 }
        ensures share { share_of tally.new ≡ share_of tally.old }
    {
        self.table.shared.fetch_add::<Add>(tally, 0, 1);
    }

    /// Takes a publish that this tally added off the count again: it was not made.
    pub fn take_back(&self, tally: &mut Tally)
        requires count { IsTallyOf self.now tally.old }
        requires added { 0 < count_of tally.old }
        ensures count { IsTallyOf self.now tally.new }
        ensures taken { count_of tally.new + 1 ≡ count_of tally.old }
        ensures share { share_of tally.new ≡ share_of tally.old }
    {
        self.table.shared.fetch_sub::<TakeBack>(tally, 0, 1);
    }

    /// The count at one moment, 1 and the publishes modulo 2^64. Who has all shares knows it.
    pub fn glance(&self, tally: &mut Tally) -> u64
        requires count { IsTallyOf self.now tally.old }
        ensures count { IsTallyOf self.now tally.new }
        ensures same { (count_of tally.new ≡ count_of tally.old) × (share_of tally.new ≡ share_of tally.old) }
        ensures alone { share_of tally.old ≡ all_shares → result ≡ counted (count_of tally.old) }
    {
        self.table.shared.load::<Glance>(tally, 0)
    }
}
