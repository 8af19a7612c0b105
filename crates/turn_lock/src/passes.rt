//! Passes are split, to be handed to other threads, and joined again.
ghost use Rattle.std.specs.Prelude.{◌≡◌, ◌+◌, ◌<◌, []};
ghost use Rattle.turn_lock.specs.Lock.{IsPassOf, Joins, marks_of, opened_with, seen_of, share_of};

use crate::lock::{Pass, TurnLock};
use crate::object::Object;
use crate::plays::{Confirm, JoinViews, SplitShare};

impl<O: Object> TurnLock<O> {
    /// A second pass, which has seen what this one has and has made no call. It takes one of this
    /// one's shares, and no memory.
    pub fn split(&self, pass: &mut Pass<O>) -> Pass<O>
        requires lock { IsPassOf self.now pass.old }
        requires share { 1 < share_of pass.old }
        ensures lock { IsPassOf self.now pass.new × IsPassOf self.now result }
        ensures old { (seen_of pass.new ≡ seen_of pass.old) × (marks_of pass.new ≡ marks_of pass.old)
            × (share_of pass.new + 1 ≡ share_of pass.old) }
        ensures new { (seen_of result ≡ seen_of pass.old) × (marks_of result ≡ []) × (share_of result ≡ 1) }
    {
        self.table.shared.split_seat::<SplitShare>(pass)
    }

    /// Takes over what another pass saw and made, and its share. It takes no memory.
    pub fn join(&self, pass: &mut Pass<O>, other: Pass<O>)
        requires lock { IsPassOf self.now pass.old × IsPassOf self.now other }
        ensures lock { IsPassOf self.now pass.new }
        ensures joins { Joins O.may O.allows O.after (opened_with self.now) pass.old other pass.new }
    {
        self.table.shared.join_seat::<JoinViews>(pass, other);
        self.table.shared.load::<Confirm<O>>(pass, 0);
    }
}
