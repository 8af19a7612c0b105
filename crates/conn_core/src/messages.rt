//! The messages of a NOTIFY, one after the other, and the ACK that answers them.
ghost use Rattle.std.specs.Prelude.{◌≡◌, ◌+◌, ◌<◌, ◌≤◌, [], bytes_eq, false, IfOk, IsErrOf, length, None, OnOk, Some, true, ℕ};
ghost use Rattle.spop_talk.specs.Ack.{ack, ack_body};
ghost use Rattle.spop_web.specs.Answer.{request_message, response_message};
ghost use Rattle.conn_core.specs.Between.{answered, asking, AtNextMessage, ComesTo, IsBlank, IsPast, starved, telling, with_message};
ghost use Rattle.conn_core.specs.Stands.{calls_each, calls_left};

use crate::Conn;
use crate::outcome::{Outcome, add_outcome};
use crate::stage::Stage;
use hall_core::Key;
use spop_data::Pair;
use spop_frame::status;
use spop_talk::{AckFault, Action, Message, write_ack};
use spop_web::{ArgFault, Asked, REQUEST_MESSAGE, RESPONSE_MESSAGE, Told, request_of, response_of};
use std::alloc::Global;
use std::mem;
use waf_plain::{Bytes, NoMemory, Seq};

impl<R, P, T> Conn<R, P, T> {
    // Goes on at the next message.
    pub(crate) fn go_on(&mut self)
        requires at { self.old.stage ≡ Stage.Ready }
        requires whole { self.old.broken ≡ false }
        ensures next { ComesTo self.old self.new }
        ensures fewer { calls_left self.new < calls_left self.old }
    {
        loop {
            if !self.take_message() {
                return;
            }
        }
    }

    // Takes the next message. Answers whether the one after it is to be taken.
    fn take_message(&mut self) -> bool
        requires at { self.old.stage ≡ Stage.Ready }
        requires whole { self.old.broken ≡ false }
        ensures on { result ≡ true → AtNextMessage self.old self.new }
        ensures done { result ≡ false → ComesTo self.old self.new }
        ensures fewer { calls_left self.new < calls_left self.old }
    {
        let Some(message) = self.left.pop_front() else {
            self.acknowledge();
            return false;
        };
        if is_named(&message, REQUEST_MESSAGE) {
            return self.take_request(message);
        }
        if is_named(&message, RESPONSE_MESSAGE) {
            return self.take_response(message);
        }
        true
    }

    // Takes a message about a request. Answers whether the one after it is to be taken.
    fn take_request(&mut self, message: Message) -> bool
        requires at { self.old.stage ≡ Stage.Ready }
        requires whole { self.old.broken ≡ false }
        requires named { bytes_eq message.name request_message ≡ true }
        ensures on { result ≡ true → IsPast message self.old self.new }
        ensures done { result ≡ false → ComesTo (with_message message self.old) self.new }
        ensures fewer { calls_left self.new < calls_left self.old + calls_each }
    {
        match request_of(self.alloc, args_of(message)) {
            Ok(asked) => {
                self.ask(asked);
                false
            }
            Err(ArgFault::Bad { arg, id }) => self.add(id, Outcome::Bad(arg)),
            Err(ArgFault::NoMemory) => {
                self.out_of_memory();
                false
            }
        }
    }

    // Takes a message about a response. Answers whether the one after it is to be taken.
    fn take_response(&mut self, message: Message) -> bool
        requires at { self.old.stage ≡ Stage.Ready }
        requires whole { self.old.broken ≡ false }
        requires other { bytes_eq message.name request_message ≡ false }
        requires named { bytes_eq message.name response_message ≡ true }
        ensures on { result ≡ true → IsPast message self.old self.new }
        ensures done { result ≡ false → ComesTo (with_message message self.old) self.new }
        ensures fewer { calls_left self.new < calls_left self.old + calls_each }
    {
        match response_of(self.alloc, args_of(message)) {
            Ok(told) => {
                self.tell(told);
                false
            }
            Err(ArgFault::Bad { arg, id }) => self.add(id, Outcome::Bad(arg)),
            Err(ArgFault::NoMemory) => {
                self.out_of_memory();
                false
            }
        }
    }

    // Asks for the rules of a request.
    fn ask(&mut self, asked: Asked)
        requires at { self.old.stage ≡ Stage.Ready }
        requires whole { self.old.broken ≡ false }
        ensures next { ComesTo (asking asked self.old) self.new }
        ensures fewer { calls_left self.new < calls_left self.old + calls_each }
    {
        let Asked { app, request } = asked;
        match two_copies(self.alloc, request.id.as_slice()) {
            Ok((id, same)) => self.stage.set(Stage::Look {
                id,
                key: Key { app, id: same },
                request,
            }),
            Err(_) => self.out_of_memory(),
        }
    }

    // Asks for the request of a response.
    fn tell(&mut self, told: Told)
        requires at { self.old.stage ≡ Stage.Ready }
        requires whole { self.old.broken ≡ false }
        ensures next { ComesTo (telling told self.old) self.new }
        ensures fewer { calls_left self.new < calls_left self.old + calls_each }
    {
        let Told { app, id, response } = told;
        match Bytes::copy(self.alloc, id.as_slice()) {
            Ok(same) => self.stage.set(Stage::Resume {
                id,
                key: Key { app, id: same },
                response,
            }),
            Err(_) => self.out_of_memory(),
        }
    }

    // The message that was taken has this outcome.
    pub(crate) fn outcome(&mut self, id: Bytes, outcome: Outcome)
        requires blank { IsBlank self.old.stage }
        requires whole { self.old.broken ≡ false }
        ensures next { ComesTo (answered (Some id) outcome self.old) self.new }
        ensures fewer { calls_left self.new < calls_left (record self.old { stage = Stage.Ready }) }
    {
        if self.add(Some(id), outcome) {
            self.go_on();
        }
    }

    // Adds the actions of an outcome. Answers whether the next message is to be taken.
    fn add(&mut self, id: Option<Bytes>, outcome: Outcome) -> bool
        requires blank { IsBlank self.old.stage }
        requires whole { self.old.broken ≡ false }
        ensures none { result ≡ false → self.old.hold ≡ None }
        ensures ok { result ≡ true → self.new ≡ answered id outcome self.old }
        ensures err { result ≡ false → self.new ≡ starved (record self.old { actions = self.new.actions }) }
    {
        match add_outcome(self.alloc, id, outcome, &mut self.actions) {
            Ok(()) => {
                self.stage.set(Stage::Ready);
                true
            }
            Err(_) => {
                self.out_of_memory();
                false
            }
        }
    }

    // The messages are done: answers them.
    fn acknowledge(&mut self)
        requires at { self.old.stage ≡ Stage.Ready }
        requires done { self.old.left ≡ [] }
        requires whole { self.old.broken ≡ false }
        ensures next { ComesTo self.old self.new }
        ensures fewer { calls_left self.new < calls_left self.old }
    {
        let limit = self.limit();
        let room = mem::replace(&mut self.spare, Bytes::new(self.alloc));
        match ack_bytes(
            self.alloc,
            self.stream,
            self.frame,
            &self.actions,
            limit,
            room,
        ) {
            Ok(bytes) => self.stage.set(Stage::Write { bytes, then: None }),
            Err(AckFault::TooBig { .. }) => self.refuse(status::TOO_BIG),
            Err(AckFault::NoMemory) => self.out_of_memory(),
        }
    }
}

fn is_named(message: &Message, name: &[u8]) -> bool
    ensures { result ≡ bytes_eq message.now.name name.now }
{
    message.name.as_slice() == name
}

fn args_of(message: Message) -> Seq<Pair>
    ensures { result ≡ message.args }
{
    message.args
}

fn two_copies(alloc: Global, bytes: &[u8]) -> Result<(Bytes, Bytes), NoMemory>
    ensures { IfOk result (λ both. (both.0 ≡ bytes.now) × (both.1 ≡ bytes.now)) }
{
    let one = Bytes::copy(alloc, bytes)?;
    let other = Bytes::copy(alloc, bytes)?;
    Ok((one, other))
}

// The ACK of a frame in the room of other bytes, where it keeps to the size.
fn ack_bytes(
    alloc: Global,
    stream: u64,
    frame: u64,
    actions: &Seq<Action>,
    size: u32,
    room: Bytes,
) -> Result<Bytes, AckFault>
    ensures ok { IfOk result (λ b. b ≡ ack stream frame actions.now) }
    ensures fits { OnOk result (length (ack_body stream frame actions.now) ≤ size) }
    ensures too_big { (n : ℕ) → IsErrOf result (AckFault.TooBig n)
        → size < length (ack_body stream frame actions.now) }
{
    let mut bytes = room;
    bytes.truncate(0);
    write_ack(alloc, stream, frame, actions, size, &mut bytes)?;
    Ok(bytes)
}
