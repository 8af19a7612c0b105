//! Opening a count.
ghost use Rattle.std.specs.Prelude.{◌≡◌, IfOk};
ghost use Rattle.turn_lock.specs.View.{all_shares};
ghost use Rattle.publish_count.specs.Count.{IsTallyOf, count_of, share_of};

use crate::count::{Counting, PublishCount, Tally};
use atomic_table::Table;
use std::alloc::Global;
use waf_plain::NoMemory;

impl PublishCount {
    /// A count of 1, and its first tally, which has added nothing and has all shares.
    pub fn new(alloc: Global) -> Result<(PublishCount, Tally), NoMemory>
        ensures tally { IfOk result (λ t. IsTallyOf t.0 t.1) }
        ensures first { IfOk result (λ t. (count_of t.1 ≡ 0) × (share_of t.1 ≡ all_shares)) }
    {
        match Table::of_words(alloc, &[1], &()) {
            Ok((table, tally)) => Ok((Counting { table }, tally)),
            Err(_) => Err(NoMemory),
        }
    }
}
