ghost use Rattle.std.specs.Prelude.{◌≡◌, ◌<◌, true};
ghost use Rattle.conn_core.specs.Calls.{At, out_of};
ghost use Rattle.conn_core.specs.Stands.{calls_left, served, Stands, State};
ghost use Rattle.conn_core.specs.Trace.{Write};

use crate::stage::Stage;
use crate::{Closing, Conn, Need};
use spop_frame::status;
use std::mem;

impl<R, P, T> Conn<R, P, T> {
    /// At Write the bytes that are to be written. It takes no memory.
    pub fn out(&self) -> &[u8]
        requires { At Need.Write self.now.broken self.now.stage }
        ensures { result.now ≡ out_of self.now.stage }
    {
        match &self.stage {
            Stage::Write { bytes, then: _ } => bytes.as_slice(),
            _ => self.farewell.as_slice(),
        }
    }

    /// They were written.
    pub fn written(&mut self)
        requires at { At Need.Write self.old.broken self.old.stage }
        ensures next { (s : State R P T) → Stands self.old s
            → Stands self.new (served (Write (out_of self.old.stage)) s) }
        ensures stays { self.old.broken ≡ true → self.new.broken ≡ true }
        ensures fewer { calls_left self.new < calls_left self.old }
    {
        match mem::replace(&mut self.stage, Stage::Bytes) {
            Stage::Write { bytes, then } => {
                self.spare = bytes;
                self.follow(then);
            }
            Stage::LastWrite => self
                .stage
                .set(Stage::Close(Closing::Ended(status::NO_MEMORY))),
            _ => unreachable!(),
        }
    }
}
