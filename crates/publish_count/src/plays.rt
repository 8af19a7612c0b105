//! The rule of the count, and what each kind of step tells the tally that takes it.
use crate::view::View;
use atomic_table::{Join, Play, Split, TableRule};

/// The word is 1 and what all tallies know of, modulo 2^64.
pub struct Sums;

impl TableRule<(), View, ()> for Sums {
    ghost use Rattle.publish_count.specs.Rule.{Counted};
    ghost use Rattle.publish_count.specs.View.{first_view};

    ghost holds = { λ k. Counted };

    ghost first = { λ k. first_view };
}

/// Counts one publish more.
pub struct Add;

impl Play<(), View> for Add {
    ghost use Rattle.publish_count.specs.Plays.{Added};

    ghost then = { Added };
}

/// Takes one of the tally's own publishes off the count again.
pub struct TakeBack;

impl Play<(), View> for TakeBack {
    ghost use Rattle.publish_count.specs.Plays.{TakenBack};

    ghost then = { TakenBack };
}

/// Changes nothing.
pub struct Glance;

impl Play<(), View> for Glance {
    ghost use Rattle.publish_count.specs.Plays.{Glanced};

    ghost then = { Glanced };
}

/// Gives a new tally one share.
pub struct SplitShare;

impl Split<View> for SplitShare {
    ghost use Rattle.publish_count.specs.View.{split_new, split_old};

    ghost left = { split_old };

    ghost right = { split_new };
}

/// Takes over what another tally counted and had as its share.
pub struct JoinTallies;

impl Join<View> for JoinTallies {
    ghost use Rattle.publish_count.specs.View.{joined, spent_view};

    ghost both = { joined };

    ghost spent = { spent_view };
}
