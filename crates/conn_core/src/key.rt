ghost use Rattle.std.specs.Prelude.{◌≡◌, ◌<◌};
ghost use Rattle.conn_core.specs.Calls.{HasKey, IsAt, Owes};
ghost use Rattle.conn_core.specs.Stands.{calls_left, served, Stands, State, Taken};
ghost use Rattle.conn_core.specs.Trace.{Enter, Resume};

use crate::stage::Stage;
use crate::{Conn, Need};
use hall_core::Key;
use std::mem;

impl<R, P, T> Conn<R, P, T> {
    /// At Enter and at Resume the key: the application as the message gave it, and the identifier. It
    /// takes no memory.
    pub fn take_key(&mut self) -> Key
        requires at { HasKey self.old.stage }
        ensures same { self.new.broken ≡ self.old.broken }
        ensures entering { IsAt Need.Enter self.old.stage → Owes Need.Enter self.new.stage }
        ensures entered { IsAt Need.Enter self.old.stage → (s : State R P T) → Stands self.old s
            → Taken self.new (served (Enter result) s) }
        ensures resuming { IsAt Need.Resume self.old.stage → Owes Need.Resume self.new.stage }
        ensures resumed { IsAt Need.Resume self.old.stage → (s : State R P T) → Stands self.old s
            → Taken self.new (served (Resume result) s) }
        ensures fewer { calls_left self.new < calls_left self.old }
    {
        match mem::replace(&mut self.stage, Stage::Bytes) {
            Stage::Enter {
                id,
                key,
                request,
                rules,
                life,
            } => {
                self.stage.set(Stage::Entering {
                    id,
                    request,
                    rules,
                    life,
                });
                key
            }
            Stage::Resume { id, key, response } => {
                self.stage.set(Stage::Resuming { id, response });
                key
            }
            _ => unreachable!(),
        }
    }
}
