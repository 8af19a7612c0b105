//! The list of applications as the object of a lock that threads share. Every call may be made.
ghost use Rattle.shelf.specs.Step.{after, allows, starts};

use crate::calls::{Call, Reply};
use crate::shelf::Shelf;
use turn_lock::Object;

impl<R: Clone> Object for Shelf<R> {
    type Call = Call<R>;

    type Reply = Reply<R>;

    ghost starts = { starts };

    ghost may = { λ s c. Unit {0} };

    ghost allows = { allows R.is_clone };

    ghost after = { after };

    ghost fits = { λ own c. Unit {0} };

    ghost kept = { λ s lists. Unit {0} };

    fn act(&mut self, call: Call<R>) -> Reply<R> {
        Shelf::act(self, call)
    }

    ghost kept_first = { λ s h. tt };

    ghost kept_call = { λ s lists i own c r k at f m a. tt };

    ghost kept_new = { λ s lists k. tt };

    ghost kept_join = { λ s lists i j xs ys zs k a n b z. tt };

    ghost may_fitting = { λ s lists i own c k at f. tt };
}
