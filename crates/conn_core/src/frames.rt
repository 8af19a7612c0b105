//! A frame that was taken off, by what was heard in it, and the frames that answer it.
ghost use Rattle.std.specs.Prelude.{◌≡◌, ◌<◌, ◌≤◌, [], false, IfOk, List, None, Option, Some, true, ℕ};
ghost use Rattle.spop_frame.specs.declared.frame.Frame.{Frame};
ghost use Rattle.spop_hello.specs.Frames.{agent_hello, disconnect, IsStatus};
ghost use Rattle.conn_core.specs.Between.{after_write, ComesFrom, ComesTo, GoesOnAt, IsBlank, leaving};
ghost use Rattle.conn_core.specs.Heard.{Hears, IsKnown};
ghost use Rattle.conn_core.specs.Stands.{calls_at, calls_left};

use crate::heard::Heard;
use crate::stage::Stage;
use crate::{Closing, Conn};
use spop_frame::status;
use spop_hello::{Terms, disconnect_frame, hello_frame};
use spop_talk::{Action, Message};
use std::alloc::Global;
use std::collections::VecDeque;
use std::mem;
use waf_plain::{Bytes, NoMemory, Seq};

impl<R, P, T> Conn<R, P, T> {
    // Answers a frame that was taken off, by what was heard in it. Answers whether it gave no need.
    pub(crate) fn take(&mut self, heard: Heard) -> bool
        requires at { self.old.stage ≡ Stage.Bytes }
        requires whole { self.old.broken ≡ false }
        requires known { IsKnown heard }
        ensures on { result ≡ true → (self.new ≡ self.old)
            × ((f : Frame) → Hears self.old.size self.old.agreed f heard → GoesOnAt f self.old self.new) }
        ensures done { result ≡ false
            → (f : Frame) → Hears self.old.size self.old.agreed f heard → ComesFrom f self.old self.new }
        ensures fewer { (f : Frame) → Hears self.old.size self.old.agreed f heard
            → calls_left self.new < calls_at f self.old }
    {
        match heard {
            Heard::Nothing => true,
            Heard::Goodbye => {
                self.write(
                    disconnect_bytes(self.alloc, status::NORMAL),
                    Some(Closing::Done),
                );
                false
            }
            Heard::Hello(terms) => {
                self.greet(&terms);
                false
            }
            Heard::Messages {
                stream,
                frame,
                messages,
            } => {
                self.notify(stream, frame, messages);
                false
            }
            Heard::Refused(status) => {
                self.refuse(status);
                false
            }
            Heard::NoMemory => {
                self.out_of_memory();
                false
            }
        }
    }

    // Answers the client's HELLO.
    fn greet(&mut self, terms: &Terms)
        requires at { self.old.stage ≡ Stage.Bytes }
        requires whole { self.old.broken ≡ false }
        ensures next { (f : Frame) → Hears self.old.size self.old.agreed f (Heard.Hello terms.now)
            → ComesFrom f self.old self.new }
        ensures fewer { (f : Frame) → calls_left self.new < calls_at f self.old }
    {
        let bytes = hello_bytes(self.alloc, terms);
        if terms.check {
            self.write(bytes, Some(Closing::Done));
        } else {
            self.agreed = Some(terms.size);
            self.write(bytes, None);
        }
    }

    // Goes on at the messages of a NOTIFY.
    fn notify(&mut self, stream: u64, frame: u64, messages: Seq<Message>)
        requires at { self.old.stage ≡ Stage.Bytes }
        requires whole { self.old.broken ≡ false }
        ensures next { (f : Frame) → Hears self.old.size self.old.agreed f (Heard.Messages stream frame messages)
            → ComesFrom f self.old self.new }
        ensures fewer { (f : Frame) → Hears self.old.size self.old.agreed f (Heard.Messages stream frame messages)
            → calls_left self.new < calls_at f self.old }
    {
        self.stream = stream;
        self.frame = frame;
        self.left = VecDeque::from(messages.into_vec());
        self.actions = emptied(mem::replace(&mut self.actions, Seq::new(self.alloc)));
        self.stage.set(Stage::Ready);
        self.go_on();
    }

    // Leaves with that status.
    pub(crate) fn refuse(&mut self, status: u32)
        requires known { IsStatus status }
        requires blank { IsBlank self.old.stage }
        requires whole { self.old.broken ≡ false }
        ensures next { ComesTo (leaving status self.old) self.new }
        ensures fewer { calls_left self.new ≤ calls_left (record self.old { stage = Stage.LastWrite }) }
    {
        self.write(
            disconnect_bytes(self.alloc, status),
            Some(Closing::Ended(status)),
        );
    }

    // Is to write these bytes, where there was memory for them.
    fn write(&mut self, bytes: Result<Bytes, NoMemory>, then: Option<Closing>)
        requires blank { IsBlank self.old.stage }
        requires whole { self.old.broken ≡ false }
        ensures next { (b : List ℕ) → IfOk bytes (λ x. x ≡ b)
            → ComesTo (record self.old { stage = Stage.Write b then }) self.new }
        ensures fewer { calls_left self.new ≤ calls_left (record self.old { stage = Stage.Write [] then }) }
    {
        match bytes {
            Ok(bytes) => self.stage.set(Stage::Write { bytes, then }),
            Err(_) => self.out_of_memory(),
        }
    }

    // After what was written: closes, or goes on at the next frame.
    pub(crate) fn follow(&mut self, then: Option<Closing>)
        requires at { self.old.stage ≡ Stage.Bytes }
        requires whole { self.old.broken ≡ false }
        ensures next { ComesTo (record self.old { stage = after_write then }) self.new }
        ensures fewer { calls_left self.new < calls_left (record self.old { stage = Stage.Write [] then }) }
    {
        match then {
            Some(closing) => self.stage.set(Stage::Close(closing)),
            None => self.settle(),
        }
    }
}

// No actions, in the room of others.
fn emptied(actions: Seq<Action>) -> Seq<Action>
    ensures { result ≡ [] }
{
    let mut actions = actions.into_vec();
    actions.clear();
    Seq::from_vec(actions)
}

// The DISCONNECT of that status.
fn disconnect_bytes(alloc: Global, status: u32) -> Result<Bytes, NoMemory>
    requires { IsStatus status }
    ensures { IfOk result (λ b. b ≡ disconnect status) }
{
    let mut bytes = Bytes::new(alloc);
    disconnect_frame(alloc, status, &mut bytes)?;
    Ok(bytes)
}

// The agent's HELLO.
fn hello_bytes(alloc: Global, terms: &Terms) -> Result<Bytes, NoMemory>
    ensures { IfOk result (λ b. b ≡ agent_hello terms.now) }
{
    let mut bytes = Bytes::new(alloc);
    hello_frame(alloc, terms, &mut bytes)?;
    Ok(bytes)
}
