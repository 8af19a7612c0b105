//! The table as the object of a lock that threads share.
ghost use Rattle.hall_core.specs.Shared.{Kept, fits, kept_call, kept_first, kept_join, kept_new, may_fitting};
ghost use Rattle.hall_core.specs.Step.{after, allows, may, starts};

use crate::calls::{Call, Reply};
use crate::hall::Hall;
use turn_lock::Object;

impl<P> Object for Hall<P> {
    type Call = Call<P>;

    type Reply = Reply<P>;

    ghost starts = { starts };

    ghost may = { may };

    ghost allows = { allows };

    ghost after = { after };

    ghost fits = { fits };

    ghost kept = { Kept };

    fn act(&mut self, call: Call<P>) -> Reply<P> {
        Hall::act(self, call)
    }

    ghost kept_first = { kept_first };

    ghost kept_call = { kept_call };

    ghost kept_new = { kept_new };

    ghost kept_join = { kept_join };

    ghost may_fitting = { may_fitting };
}
