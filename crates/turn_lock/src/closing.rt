//! Taking a lock apart.
ghost use Rattle.std.specs.Prelude.{◌≡◌};
ghost use Rattle.turn_lock.specs.History.{left_by, Legal};
ghost use Rattle.turn_lock.specs.Lock.{IsPassOf, OwnsAll, opened_with, seen_of, share_of};
ghost use Rattle.turn_lock.specs.View.{all_shares};

use crate::lock::{Pass, TurnLock};
use crate::object::Object;

impl<O: Object> TurnLock<O> {
    /// The object, as the calls left it. A pass with all shares is the only one, so no call is
    /// under way. It takes no memory.
    pub fn close(self, pass: Pass<O>) -> O
        requires lock { IsPassOf self pass }
        requires share { share_of pass ≡ all_shares }
        ensures object { result ≡ left_by O.after (opened_with self) (seen_of pass) }
        ensures legal { Legal O.may O.allows O.after (opened_with self) (seen_of pass) }
        ensures whole { OwnsAll pass }
    {
        let Self { table } = self;
        let mut closed = table.close_with(pass);
        let slot = closed.take(0);
        closed.free();
        match slot {
            Some(held) => held.into_object(),
            None => unreachable!(),
        }
    }
}
