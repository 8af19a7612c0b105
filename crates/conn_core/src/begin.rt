ghost use Rattle.std.specs.Prelude.{◌≡◌, ◌<◌, false, true};
ghost use Rattle.conn_core.specs.Calls.{begun_with, IsAt, Owes};
ghost use Rattle.conn_core.specs.Stands.{calls_left, served, Stands, State, Taken};
ghost use Rattle.conn_core.specs.Trace.{Begin};

use crate::outcome::Outcome;
use crate::stage::{Stage, is_held};
use crate::{BegunAnswer, Conn, Need};
use std::mem;
use web_parts::Request;

impl<R, P, T> Conn<R, P, T> {
    /// At Begin the rules, and the request that is to be judged by them.
    pub fn take_begin(&mut self) -> (R, Request)
        requires at { IsAt Need.Begin self.old.stage }
        ensures at { Owes Need.Begin self.new.stage }
        ensures same { self.new.broken ≡ self.old.broken }
        ensures done { (s : State R P T) → Stands self.old s → Taken self.new (served (Begin result.0 result.1) s) }
        ensures fewer { calls_left self.new < calls_left self.old }
    {
        match mem::replace(&mut self.stage, Stage::Bytes) {
            Stage::Begin { id, request, rules } => {
                self.stage.set(Stage::Begun { id });
                (rules, request)
            }
            _ => unreachable!(),
        }
    }

    /// The answer to Begin, after its values were taken.
    pub fn give_begun(&mut self, answer: BegunAnswer<P>)
        requires at { Owes Need.Begin self.old.stage }
        requires whole { self.old.broken ≡ false }
        ensures next { (s : State R P T) → Taken self.old s → Stands self.new (begun_with answer s) }
        ensures broken { answer ≡ BegunAnswer.NoMemory → self.new.broken ≡ true }
        ensures fewer { calls_left self.new < calls_left self.old }
    {
        match mem::replace(&mut self.stage, Stage::Bytes) {
            Stage::Begun { id } => match answer {
                BegunAnswer::Interrupted(verdict) => {
                    if is_held(&self.hold) {
                        self.stage.set(Stage::Leave { id, verdict });
                    } else {
                        self.outcome(id, Outcome::Stopped(verdict));
                    }
                }
                BegunAnswer::Goes(half) => {
                    if is_held(&self.hold) {
                        self.stage.set(Stage::Park { id, half });
                    } else {
                        self.stage.set(Stage::Retire { id, half });
                    }
                }
                BegunAnswer::NoMemory => {
                    if is_held(&self.hold) {
                        self.broken = true;
                        self.stage.set(Stage::LastLeave);
                    } else {
                        self.out_of_memory();
                    }
                }
            },
            _ => unreachable!(),
        }
    }
}
