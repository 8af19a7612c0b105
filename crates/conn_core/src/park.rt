ghost use Rattle.std.specs.Prelude.{◌≡◌, ◌<◌, false};
ghost use Rattle.conn_core.specs.Calls.{IsAt};
ghost use Rattle.conn_core.specs.Stands.{calls_left, served, Stands, State};
ghost use Rattle.conn_core.specs.Trace.{Park};

use crate::outcome::Outcome;
use crate::stage::{Hold, Stage, let_out};
use crate::{Conn, Need};
use std::mem;

impl<R, P, T> Conn<R, P, T> {
    /// At Park the ticket, how long what is parked under it stays, and that.
    pub fn take_park(&mut self) -> (T, u64, P)
        requires at { IsAt Need.Park self.old.stage }
        requires whole { self.old.broken ≡ false }
        ensures next { (s : State R P T) → Stands self.old s
            → Stands self.new (served (Park result.0 result.1 result.2) s) }
        ensures fewer { calls_left self.new < calls_left self.old }
    {
        match mem::replace(&mut self.stage, Stage::Bytes) {
            Stage::Park { id, half } => {
                let Hold { ticket, life } = let_out(&mut self.hold);
                self.outcome(id, Outcome::Passed);
                (ticket, life, half)
            }
            _ => unreachable!(),
        }
    }
}
