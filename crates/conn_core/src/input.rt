//! The input: its pieces, its end, and the frames at its head.
ghost use Rattle.std.specs.Prelude.{◌≡◌, ◌+◌, ◌*◌, ◌<◌, ◌≤◌, ◌++◌, false, length, List, true, ℕ};
ghost use Rattle.spop_frame.specs.Head.{head_of, NotYet};
ghost use Rattle.conn_core.specs.Between.{AtNextFrame, ComesTo};
ghost use Rattle.conn_core.specs.Stands.{calls_each, calls_left, fed, is_open, listens, Plain, shut, Stands, State};
ghost use Rattle.conn_core.specs.Stands.{StillTaken, Taken, TakenOrLost};
ghost use Rattle.conn_core.specs.Trace.{limit_of};

use crate::heard::heard_in;
use crate::stage::{Stage, is_held};
use crate::{Closing, Conn};
use spop_frame::Head;
use std::mem;

impl<R: Drop, P: Drop, T> Conn<R, P, T> {
    /// Takes a piece of the input. At Close, and once it is out of memory, nothing changes. Where no
    /// memory is found for it, what is held is let go, but for the ticket, which is to be left. Between
    /// a need's take and its give that shows as `broken`: the answer can't be given any longer, and the
    /// caller lets it go.
    pub fn feed(&mut self, piece: &[u8])
        ensures next { (s : State R P T) → Stands self.old s → Stands self.new (fed self.old piece.now s) }
        ensures taken { (s : State R P T) → Taken self.old s
            → TakenOrLost self.old self.new (fed self.old piece.now s) }
        ensures deaf { listens self.old ≡ false → self.new ≡ self.old }
        ensures fewer { calls_left self.new ≤ calls_left self.old + calls_each * length piece.now }
    {
        if self.broken {
            return;
        }
        if let Stage::Close(_) = &self.stage {
            return;
        }
        let Ok(()) = self.framer.feed(piece) else {
            self.give_up();
            return;
        };
        if let Stage::Bytes = &self.stage {
            self.settle();
        }
    }

    /// The input has ended. At Close, and once it is out of memory, nothing changes. It may come between a
    /// need's take and its give.
    pub fn end(&mut self)
        ensures next { (s : State R P T) → Stands self.old s → Stands self.new (shut self.old s) }
        ensures taken { (s : State R P T) → Taken self.old s → StillTaken self.old self.new (shut self.old s) }
        ensures deaf { listens self.old ≡ false → self.new ≡ self.old }
        ensures fewer { calls_left self.new ≤ calls_left self.old }
    {
        if self.broken {
            return;
        }
        if let Stage::Close(_) = &self.stage {
            return;
        }
        self.ended = true;
        if let Stage::Bytes = &self.stage {
            self.settle();
        }
    }

    // Out of memory: what is held is let go, and the ticket is to be left.
    fn give_up(&mut self)
        requires open { is_open self.old.stage ≡ true }
        requires whole { self.old.broken ≡ false }
        ensures next { (s : State R P T) (more : List ℕ) → Plain self.old s
            → Stands self.new (record s { input = s.input ++ more }) }
        ensures broken { self.new.broken ≡ true }
        ensures fewer { calls_left self.new ≤ calls_left self.old }
    {
        drop(mem::replace(&mut self.stage, Stage::Bytes));
        self.broken = true;
        if is_held(&self.hold) {
            self.stage.set(Stage::LastLeave);
        } else {
            self.stage.set(Stage::LastWrite);
        }
    }
}

impl<R, P, T> Conn<R, P, T> {
    // Goes on at the next frame.
    pub(crate) fn settle(&mut self)
        requires at { self.old.stage ≡ Stage.Bytes }
        requires whole { self.old.broken ≡ false }
        ensures next { ComesTo self.old self.new }
        ensures fewer { calls_left self.new ≤ calls_left self.old }
    {
        loop {
            if !self.take_frame() {
                return;
            }
        }
    }

    // Takes the frame at the head, if it is whole. Answers whether the next one is to be taken.
    fn take_frame(&mut self) -> bool
        requires at { self.old.stage ≡ Stage.Bytes }
        requires whole { self.old.broken ≡ false }
        ensures on { result ≡ true → AtNextFrame self.old self.new }
        ensures done { result ≡ false → ComesTo self.old self.new }
        ensures fewer { calls_left self.new ≤ calls_left self.old }
    {
        let limit = self.limit();
        self.framer.set_limit(limit);
        let heard = match self.framer.head() {
            Head::NotYet => {
                self.wait();
                return false;
            }
            Head::Bad(status) => {
                self.refuse(status);
                return false;
            }
            Head::Whole(header) => heard_in(self.alloc, &header, self.size, self.agreed),
        };
        self.framer.skip();
        self.take(heard)
    }

    // No frame is whole: waits for more, unless the input has ended.
    fn wait(&mut self)
        requires at { self.old.stage ≡ Stage.Bytes }
        requires whole { self.old.broken ≡ false }
        requires head { head_of (limit_of self.old.size self.old.agreed) self.old.unread ≡ NotYet }
        ensures next { ComesTo self.old self.new }
        ensures fewer { calls_left self.new ≤ calls_left self.old }
    {
        if !self.ended {
            return;
        }
        if self.framer.held() == 0 {
            self.stage.set(Stage::Close(Closing::Done));
            return;
        }
        self.stage.set(Stage::Close(Closing::CutShort));
    }

    // The longest frame that is taken now.
    pub(crate) fn limit(&self) -> u32
        ensures { result ≡ limit_of self.now.size self.now.agreed }
    {
        self.agreed.unwrap_or(self.size)
    }
}
