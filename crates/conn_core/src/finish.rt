ghost use Rattle.std.specs.Prelude.{◌≡◌, ◌<◌, false, true};
ghost use Rattle.conn_core.specs.Calls.{ended_with, IsAt, Owes};
ghost use Rattle.conn_core.specs.Stands.{calls_left, served, Stands, State, Taken};
ghost use Rattle.conn_core.specs.Trace.{Finish};

use crate::outcome::Outcome;
use crate::stage::Stage;
use crate::{Conn, EndedAnswer, Need};
use std::mem;
use web_parts::Response;

impl<R, P, T> Conn<R, P, T> {
    /// At Finish what was parked, and the response that is to be judged with it.
    pub fn take_finish(&mut self) -> (P, Response)
        requires at { IsAt Need.Finish self.old.stage }
        ensures at { Owes Need.Finish self.new.stage }
        ensures same { self.new.broken ≡ self.old.broken }
        ensures done { (s : State R P T) → Stands self.old s → Taken self.new (served (Finish result.0 result.1) s) }
        ensures fewer { calls_left self.new < calls_left self.old }
    {
        match mem::replace(&mut self.stage, Stage::Bytes) {
            Stage::Finish { id, half, response } => {
                self.stage.set(Stage::Finishing(id));
                (half, response)
            }
            _ => unreachable!(),
        }
    }

    /// The answer to Finish, after its values were taken.
    pub fn give_ended(&mut self, answer: EndedAnswer)
        requires at { Owes Need.Finish self.old.stage }
        requires whole { self.old.broken ≡ false }
        ensures next { (s : State R P T) → Taken self.old s → Stands self.new (ended_with answer s) }
        ensures broken { answer ≡ EndedAnswer.NoMemory → self.new.broken ≡ true }
        ensures fewer { calls_left self.new < calls_left self.old }
    {
        match mem::replace(&mut self.stage, Stage::Bytes) {
            Stage::Finishing(id) => match answer {
                EndedAnswer::Verdict(verdict) => match verdict {
                    None => self.outcome(id, Outcome::Passed),
                    Some(verdict) => self.outcome(id, Outcome::Stopped(verdict)),
                },
                EndedAnswer::NoMemory => self.out_of_memory(),
            },
            _ => unreachable!(),
        }
    }
}
