//! The calls of Enter; its key is taken as that of Resume is.
ghost use Rattle.std.specs.Prelude.{◌≡◌, ◌<◌, false};
ghost use Rattle.conn_core.specs.Calls.{entry_of, Owes};
ghost use Rattle.conn_core.specs.Stands.{calls_left, replied, Stands, State, Taken};

use crate::outcome::Outcome;
use crate::stage::{Hold, Stage, put};
use crate::{Conn, EntryAnswer, Need};
use spop_web::AckError;
use std::mem;

impl<R, P, T> Conn<R, P, T> {
    /// The answer to Enter, after its key was taken.
    pub fn give_entry(&mut self, answer: EntryAnswer<T>)
    where
        R: Drop,
        requires at { Owes Need.Enter self.old.stage }
        requires whole { self.old.broken ≡ false }
        ensures next { (s : State R P T) → Taken self.old s → Stands self.new (replied (entry_of answer) s) }
        ensures fewer { calls_left self.new < calls_left self.old }
    {
        match mem::replace(&mut self.stage, Stage::Bytes) {
            Stage::Entering {
                id,
                request,
                rules,
                life,
            } => match answer {
                EntryAnswer::Entered(ticket) => {
                    put(&mut self.hold, Hold { ticket, life });
                    self.stage.set(Stage::Begin { id, request, rules });
                }
                EntryAnswer::IdInUse => self.outcome(id, Outcome::Failed(AckError::IdInUse)),
                EntryAnswer::Full => self.outcome(id, Outcome::Failed(AckError::TableFull)),
                EntryAnswer::Worn => self.outcome(id, Outcome::Failed(AckError::Worn)),
            },
            _ => unreachable!(),
        }
    }
}
