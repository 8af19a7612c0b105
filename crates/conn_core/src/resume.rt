//! The calls of Resume; its key is taken as that of Enter is.
ghost use Rattle.std.specs.Prelude.{◌≡◌, ◌<◌, false};
ghost use Rattle.conn_core.specs.Calls.{claim_of, Owes};
ghost use Rattle.conn_core.specs.Stands.{calls_left, replied, Stands, State, Taken};

use crate::outcome::Outcome;
use crate::stage::Stage;
use crate::{Conn, Need};
use spop_web::AckError;
use std::mem;

impl<R, P, T> Conn<R, P, T> {
    /// The answer to Resume, after its key was taken: what was parked under it.
    pub fn give_claim(&mut self, answer: Option<P>)
        requires at { Owes Need.Resume self.old.stage }
        requires whole { self.old.broken ≡ false }
        ensures next { (s : State R P T) → Taken self.old s → Stands self.new (replied (claim_of answer) s) }
        ensures fewer { calls_left self.new < calls_left self.old }
    {
        match mem::replace(&mut self.stage, Stage::Bytes) {
            Stage::Resuming { id, response } => match answer {
                Some(half) => self.stage.set(Stage::Finish { id, half, response }),
                None => self.outcome(id, Outcome::Failed(AckError::NotParked)),
            },
            _ => unreachable!(),
        }
    }
}
