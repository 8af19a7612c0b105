//! Tallies are split, to be handed to other threads, and joined again.
ghost use Rattle.std.specs.Prelude.{◌≡◌, ◌+◌, ◌<◌};
ghost use Rattle.publish_count.specs.Count.{IsTallyOf, count_of, share_of};

use crate::count::{PublishCount, Tally};
use crate::plays::{JoinTallies, SplitShare};

impl PublishCount {
    /// A second tally, which has added nothing. It takes one of this one's shares, and no memory.
    pub fn split(&self, tally: &mut Tally) -> Tally
        requires count { IsTallyOf self.now tally.old }
        requires share { 1 < share_of tally.old }
        ensures count { IsTallyOf self.now tally.new × IsTallyOf self.now result }
        ensures old { (count_of tally.new ≡ count_of tally.old) × (share_of tally.new + 1 ≡ share_of tally.old) }
        ensures new { (count_of result ≡ 0) × (share_of result ≡ 1) }
    {
        self.table.shared.split_seat::<SplitShare>(tally)
    }

    /// Takes over what another tally added, and its share. It takes no memory.
    pub fn join(&self, tally: &mut Tally, other: Tally)
        requires count { IsTallyOf self.now tally.old × IsTallyOf self.now other }
        ensures count { IsTallyOf self.now tally.new }
        ensures added { count_of tally.new ≡ count_of tally.old + count_of other }
        ensures share { share_of tally.new ≡ share_of tally.old + share_of other }
    {
        self.table.shared.join_seat::<JoinTallies>(tally, other)
    }
}
