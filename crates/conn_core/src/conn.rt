ghost use Rattle.std.specs.Prelude.{◌≡◌, false, IfOk, IfSome, None, Option, option_to_list, Some, true};
ghost use Rattle.conn_core.specs.Between.{IsBlank, starved};
ghost use Rattle.conn_core.specs.Calls.{At, closing_of, kind_at};
ghost use Rattle.conn_core.specs.Stands.{Closes, Holds, is_held, listens, opening, Stands, State, WaitsForBytes};
ghost use Rattle.conn_core.specs.Trace.{held_by};

use crate::farewell::Farewell;
use crate::stage::{Hold, Stage};
use crate::{Closing, Need};
use spop_frame::Framer;
use spop_talk::{Action, Message};
use std::alloc::Global;
use std::collections::VecDeque;
use std::marker::Model;
use waf_plain::{Bytes, NoMemory, Seq};

/// One connection, as the agent's side of it. `R` is what stands for a set of rules, `P` a request
/// that was judged and is parked, `T` the ticket that it is parked under; it holds at most one of
/// each, and hands out what it was given.
///
/// Between two calls it needs one thing, which `need` names. A value of a need is taken by a call
/// whose name begins with `take_`, and its answer is given by one that begins with `give_`; what a
/// `take_` call hands out is not held any longer.
#[derive(Drop)]
pub struct Conn<R, P, T> {
    pub(crate) alloc: Global,
    pub(crate) size: u32,
    pub(crate) agreed: Option<u32>,
    pub(crate) framer: Framer,
    pub(crate) ended: bool,
    pub(crate) stage: Stage<R, P>,
    // of the request that is being judged, until it is parked or left
    pub(crate) hold: Option<Hold<T>>,
    // the NOTIFY that is being answered: its stream and frame, the messages that are left, the actions so far
    pub(crate) stream: u64,
    pub(crate) frame: u64,
    pub(crate) left: VecDeque<Message>,
    pub(crate) actions: Seq<Action>,
    pub(crate) farewell: Farewell,
    // the room of what was written last, for the next ACK
    pub(crate) spare: Bytes,
    pub(crate) broken: bool,
}

impl<R, P, T> Model for Conn<R, P, T> {
    ghost use Rattle.conn_core.specs.Stands.{ConnView, Holds};

    ghost Value = { ConnView R P T };

    ghost view = { λ c. record {
      size = c.size;
      agreed = c.agreed;
      unread = c.framer.bytes;
      ended = c.ended;
      stage = c.stage;
      hold = c.hold;
      stream = c.stream;
      frame = c.frame;
      left = c.left.items;
      actions = c.actions;
      broken = c.broken;
    } };

    ghost invariant = { λ c. Holds c.stage c.hold };
}

impl<R, P, T> Conn<R, P, T> {
    /// A connection of an agent that offers frames of that size, before its first byte. It takes the
    /// memory of the last frame that it may have to write.
    pub fn new(alloc: Global, size: u32) -> Result<Conn<R, P, T>, NoMemory>
        ensures stands { IfOk result (λ c. Stands c (opening size)) }
        ensures listens { IfOk result (λ c. listens c ≡ true) }
    {
        let farewell = Farewell::new(alloc)?;
        Ok(Conn {
            alloc,
            size,
            agreed: None,
            framer: Framer::new(alloc, size),
            ended: false,
            stage: Stage::Bytes,
            hold: None,
            stream: 0,
            frame: 0,
            left: VecDeque::new(alloc),
            actions: Seq::new(alloc),
            farewell,
            spare: Bytes::new(alloc),
            broken: false,
        })
    }

    /// What it needs next. It takes no memory.
    pub fn need(&self) -> Need
        ensures kind { result ≡ kind_at self.now.stage }
        ensures at { (s : State R P T) → Stands self.now s → At result self.now.broken self.now.stage }
        ensures bytes { (s : State R P T) → Stands self.now s → result ≡ Need.Bytes → WaitsForBytes s }
        ensures holds { Holds self.now.stage self.now.hold }
    {
        match &self.stage {
            Stage::Bytes => Need::Bytes,
            Stage::Ready => Need::Bytes,
            Stage::Look { .. } => Need::Look,
            Stage::Enter { .. } | Stage::Entering { .. } => Need::Enter,
            Stage::Begin { .. } | Stage::Begun { .. } => Need::Begin,
            Stage::Park { .. } => Need::Park,
            Stage::Leave { .. } | Stage::LastLeave => Need::Leave,
            Stage::Retire { .. } | Stage::Retiring(_) => Need::Retire,
            Stage::Resume { .. } | Stage::Resuming { .. } => Need::Resume,
            Stage::Finish { .. } | Stage::Finishing(_) => Need::Finish,
            Stage::Write { .. } | Stage::LastWrite => Need::Write,
            Stage::Close(_) => Need::Close,
        }
    }

    /// Whether its needs are those of a connection that is out of memory, or was told so. It takes no
    /// memory.
    pub fn broken(&self) -> bool
        ensures { result ≡ self.now.broken }
    {
        self.broken
    }

    /// How it closes, exactly at Close. It takes no memory.
    pub fn closing(&self) -> Option<Closing>
        ensures at { result ≡ closing_of self.now.stage }
        ensures none { IfSome result (λ how. is_held self.now.hold ≡ false) }
        ensures trace { (s : State R P T) → Stands self.now s → (how : _) → result ≡ Some how
            → Closes self.now s how }
    {
        match &self.stage {
            Stage::Close(closing) => Some(*closing),
            _ => None,
        }
    }

    // Out of memory, with no ticket held.
    pub(crate) fn out_of_memory(&mut self)
        requires { IsBlank self.old.stage }
        ensures none { self.old.hold ≡ None }
        ensures next { self.new ≡ starved self.old }
    {
        self.broken = true;
        self.stage.set(Stage::LastWrite);
    }
}

impl<R: Drop, P: Drop, T> Conn<R, P, T> {
    /// Lets the connection go, and hands out the ticket that it holds, which is to be given back. After
    /// Close it holds none.
    pub fn let_go(self) -> Option<T>
        ensures held { option_to_list result ≡ held_by self.hold }
        ensures at { Holds self.stage self.hold }
    {
        let Conn { hold, .. } = self;
        ticket_of(hold)
    }
}

// The ticket that is held.
fn ticket_of<T>(hold: Option<Hold<T>>) -> Option<T>
    ensures { option_to_list result ≡ held_by hold }
{
    match hold {
        Some(Hold { ticket, life: _ }) => Some(ticket),
        None => None,
    }
}
