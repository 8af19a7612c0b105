ghost use Rattle.std.specs.Prelude.{◌≡◌, ◌+◌, ◌*◌, ◌-◌, ◌<◌, ◌^◌, ℕ};
ghost use Rattle.workload.specs.Draws.{after_steps, turn_of};
ghost use Rattle.workload.specs.declared.turn.TheConstants.{DRAWS};

use crate::draws::Draws;

// How many numbers a turn takes.
const DRAWS: u64 = 6;

// The numbers that decide a turn.
#[derive(Drop)]
pub(crate) struct Turn {
    // which turn it is, counted from 1
    pub(crate) number: u64,
    // the connection of the request
    pub(crate) conn: u64,
    // the method of the request
    pub(crate) method: u64,
    // the length of the request's query
    pub(crate) query: u64,
    // how many turns back the request lies that the response answers
    pub(crate) back: u64,
    // the status of the response
    pub(crate) status: u64,
    // where the request is cut, and how far the clock goes on after it
    pub(crate) moment: u64,
}

impl Turn {
    pub(crate) fn drawn(number: u64, draws: &mut Draws) -> Turn
        ensures turn { (seed : ℕ) → draws.old.held ≡ after_steps seed (DRAWS * (number - 1))
            → result ≡ turn_of seed number }
        ensures held { (seed : ℕ) → draws.old.held ≡ after_steps seed (DRAWS * (number - 1))
            → draws.new.held ≡ after_steps seed (DRAWS * (number - 1) + DRAWS) }
    {
        Turn {
            number,
            conn: draws.next(),
            method: draws.next(),
            query: draws.next(),
            back: draws.next(),
            status: draws.next(),
            moment: draws.next(),
        }
    }
}
