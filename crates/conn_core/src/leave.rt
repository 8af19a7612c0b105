ghost use Rattle.std.specs.Prelude.{◌≡◌, ◌<◌, true};
ghost use Rattle.conn_core.specs.Calls.{At};
ghost use Rattle.conn_core.specs.Stands.{calls_left, served, Stands, State};
ghost use Rattle.conn_core.specs.Trace.{Leave};

use crate::outcome::Outcome;
use crate::stage::{Hold, Stage, let_out};
use crate::{Conn, Need};
use std::mem;

impl<R, P, T> Conn<R, P, T> {
    /// At Leave the ticket that is given back.
    pub fn take_leave(&mut self) -> T
        requires at { At Need.Leave self.old.broken self.old.stage }
        ensures next { (s : State R P T) → Stands self.old s → Stands self.new (served (Leave result) s) }
        ensures stays { self.old.broken ≡ true → self.new.broken ≡ true }
        ensures fewer { calls_left self.new < calls_left self.old }
    {
        match mem::replace(&mut self.stage, Stage::Bytes) {
            Stage::Leave { id, verdict } => {
                let Hold { ticket, life: _ } = let_out(&mut self.hold);
                self.outcome(id, Outcome::Stopped(verdict));
                ticket
            }
            Stage::LastLeave => {
                let Hold { ticket, life: _ } = let_out(&mut self.hold);
                self.stage.set(Stage::LastWrite);
                ticket
            }
            _ => unreachable!(),
        }
    }
}
