//! Passes are split, to be handed to other threads, and joined again.
ghost use Rattle.std.specs.Prelude.{◌≡◌, ◌+◌, ◌<◌, []};
ghost use Rattle.turn_lock.specs.Lock.{OwnsAll, marks_of, seen_of, share_of};
ghost use Rattle.turn_lock.specs.View.{all_shares};
ghost use Rattle.shelf_lock.specs.Passes.{IsPassOfShelf, Joined, left_in};

use crate::shared::{Guarded, SharedShelf, ShelfPass};
use shelf::Shelf;

impl<R: Clone> SharedShelf<R> {
    /// A second pass, which has seen what this one has and has made no call. It takes one of this
    /// one's shares, and no memory.
    pub fn split(&self, pass: &mut ShelfPass<R>) -> ShelfPass<R>
        requires shelf { IsPassOfShelf R.is_clone self.now pass.old }
        requires share { 1 < share_of pass.old }
        ensures shelf { IsPassOfShelf R.is_clone self.now pass.new × IsPassOfShelf R.is_clone self.now result }
        ensures old { (seen_of pass.new ≡ seen_of pass.old) × (marks_of pass.new ≡ marks_of pass.old)
            × (share_of pass.new + 1 ≡ share_of pass.old) }
        ensures new { (seen_of result ≡ seen_of pass.old) × (marks_of result ≡ []) × (share_of result ≡ 1) }
    {
        self.lock.split(pass)
    }

    /// Takes over what another pass saw and made, and its share. It takes no memory.
    pub fn join(&self, pass: &mut ShelfPass<R>, other: ShelfPass<R>)
        requires shelf { IsPassOfShelf R.is_clone self.now pass.old × IsPassOfShelf R.is_clone self.now other }
        ensures shelf { IsPassOfShelf R.is_clone self.now pass.new }
        ensures joined { Joined R.is_clone self.now pass.old other pass.new }
    {
        self.lock.join(pass, other)
    }

    /// The list that is in force after all calls. A pass with all shares is the only one. It takes
    /// no memory.
    pub fn close(self, pass: ShelfPass<R>) -> Shelf<R>
        requires shelf { IsPassOfShelf R.is_clone self pass }
        requires share { share_of pass ≡ all_shares }
        ensures list { result ≡ left_in self pass }
        ensures whole { OwnsAll pass }
    {
        let Guarded { lock } = self;
        lock.close(pass)
    }
}
