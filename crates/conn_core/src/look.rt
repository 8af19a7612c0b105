ghost use Rattle.std.specs.Prelude.{◌≡◌, ◌<◌, false, true};
ghost use Rattle.conn_core.specs.Calls.{app_of, IsAt, looked_up};
ghost use Rattle.conn_core.specs.Stands.{calls_left, Stands, State};

use crate::outcome::Outcome;
use crate::stage::Stage;
use crate::{Conn, LookAnswer, Need};
use spop_web::AckError;
use std::mem;

impl<R, P, T> Conn<R, P, T> {
    /// At Look the application that is asked for, empty where the message named none. It takes no memory.
    pub fn app(&self) -> &[u8]
        requires { IsAt Need.Look self.now.stage }
        ensures { result.now ≡ app_of self.now.stage }
    {
        match &self.stage {
            Stage::Look { key, .. } => key.app.as_slice(),
            _ => unreachable!(),
        }
    }

    /// The answer to Look.
    pub fn give_look(&mut self, answer: LookAnswer<R>)
        requires at { IsAt Need.Look self.old.stage }
        requires whole { self.old.broken ≡ false }
        ensures next { (s : State R P T) → Stands self.old s
            → Stands self.new (looked_up (app_of self.old.stage) answer s) }
        ensures broken { answer ≡ LookAnswer.NoMemory → self.new.broken ≡ true }
        ensures fewer { calls_left self.new < calls_left self.old }
    {
        match mem::replace(&mut self.stage, Stage::Bytes) {
            Stage::Look { id, key, request } => match answer {
                LookAnswer::Found { rules, settings } => {
                    if settings.responses {
                        self.stage.set(Stage::Enter {
                            id,
                            key,
                            request,
                            rules,
                            life: settings.life,
                        });
                    } else {
                        self.stage.set(Stage::Begin { id, request, rules });
                    }
                }
                LookAnswer::UnknownApp => self.outcome(id, Outcome::Failed(AckError::UnknownApp)),
                LookAnswer::NoMemory => self.out_of_memory(),
            },
            _ => unreachable!(),
        }
    }
}
