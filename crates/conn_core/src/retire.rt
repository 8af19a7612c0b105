ghost use Rattle.std.specs.Prelude.{◌≡◌, ◌<◌, false, true};
ghost use Rattle.conn_core.specs.Calls.{IsAt, Owes};
ghost use Rattle.conn_core.specs.Stands.{calls_left, served, Stands, State, Taken};
ghost use Rattle.conn_core.specs.Trace.{Retire};

use crate::outcome::Outcome;
use crate::stage::Stage;
use crate::{Conn, Need};
use std::mem;

impl<R, P, T> Conn<R, P, T> {
    /// At Retire the request that is to be ended.
    pub fn take_retire(&mut self) -> P
        requires at { IsAt Need.Retire self.old.stage }
        ensures at { Owes Need.Retire self.new.stage }
        ensures same { self.new.broken ≡ self.old.broken }
        ensures done { (s : State R P T) → Stands self.old s → Taken self.new (served (Retire result) s) }
        ensures fewer { calls_left self.new < calls_left self.old }
    {
        match mem::replace(&mut self.stage, Stage::Bytes) {
            Stage::Retire { id, half } => {
                self.stage.set(Stage::Retiring(id));
                half
            }
            _ => unreachable!(),
        }
    }

    /// The answer to Retire, after its value was taken: whether there was memory.
    pub fn give_retired(&mut self, memory: bool)
        requires at { Owes Need.Retire self.old.stage }
        requires whole { self.old.broken ≡ false }
        ensures next { (s : State R P T) → Taken self.old s → Stands self.new s }
        ensures broken { memory ≡ false → self.new.broken ≡ true }
        ensures fewer { calls_left self.new < calls_left self.old }
    {
        match mem::replace(&mut self.stage, Stage::Bytes) {
            Stage::Retiring(id) => {
                if memory {
                    self.outcome(id, Outcome::Passed);
                } else {
                    self.out_of_memory();
                }
            }
            _ => unreachable!(),
        }
    }
}
