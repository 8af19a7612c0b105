//! Making calls in turns.
ghost use Rattle.std.specs.Prelude.{◌≡◌, ℕ, ◌%◌, ◌^◌, []};
ghost use Rattle.turn_lock.specs.declared.view.Stage.TheVariants.{Waiting};
ghost use Rattle.turn_lock.specs.Lock.{Extends, IsPassOf, opened_with, own_of};
ghost use Rattle.turn_lock.specs.Plays.{HasCome};

use crate::lock::{Pass, TurnLock};
use crate::object::Object;
use crate::plays::{Draw, End, Look};
use crate::slot::{Held, Note};
use std::snapshot::Snapshot;
use std::sync::Wait;
use std::thread;

// Looks that a waiting thread takes before it sleeps: most turns are short.
const LOOKS_BEFORE_SLEEP: u32 = 32;

impl<O: Object> TurnLock<O> {
    /// Makes a call in a turn of its own, after all turns that were drawn before. It takes no
    /// memory. It waits while others have the turn, and a call from within the object's own `act`
    /// would wait forever.
    pub fn act<W: Wait>(&self, rt: &W, pass: &mut Pass<O>, call: O::Call) -> O::Reply
        requires lock { IsPassOf self.now pass.old }
        requires fits { O.fits (own_of pass.old) call }
        ensures lock { IsPassOf self.now pass.new }
        ensures call { Extends O.may O.allows O.after (opened_with self.now) pass.old call result pass.new }
    {
        self.wait_outside(rt, pass);
        let (reply, turn) = self.take_turn(rt, pass, call);
        self.wake_sleepers(pass, turn);
        reply
    }

    // Draws a turn, waits for it, and makes the call in it. The number of the turn comes back too.
    fn take_turn<W: Wait>(&self, rt: &W, pass: &mut Pass<O>, call: O::Call) -> (O::Reply, u64)
        requires lock { IsPassOf self.now pass.old }
        requires fits { O.fits (own_of pass.old) call }
        ensures lock { IsPassOf self.now pass.new }
        ensures call { Extends O.may O.allows O.after (opened_with self.now) pass.old call result.0 pass.new }
    {
        let turn = self.table.shared.fetch_add::<Draw>(pass, 0, 1);
        self.await_turn(rt, pass, turn);
        let Some(held) = self.table.shared.exchange(pass, 0, None) else {
            unreachable!()
        };
        let mut object = held.into_object();
        let asked = Snapshot::of(&call);
        let reply = object.act(call);
        let note = Note {
            call: asked,
            reply: Snapshot::of(&reply),
        };
        let back = Some(Held {
            object,
            last: Some(note),
        });
        match self.table.shared.exchange(pass, 0, back) {
            None => {}
            Some(_) => unreachable!(),
        }
        self.table.shared.fetch_add::<End>(pass, 1, 1);
        (reply, turn)
    }

    // Waits until the turn has come.
    fn await_turn<W: Wait>(&self, rt: &W, pass: &mut Pass<O>, turn: u64)
        requires lock { pass.old.table_id ≡ self.now.table.shared.table_id }
        requires turn { (pass.old.me.1 ≡ []) × ((t : ℕ) × (pass.old.me.0.stage ≡ Waiting t) × (turn ≡ t % 2 ^ 64)) }
        ensures lock { pass.new.table_id ≡ self.now.table.shared.table_id }
        ensures come { HasCome O.may O.allows O.after O.fits pass.old.me.0 pass.new.me }
    {
        let mut looks = 0;
        for _ in rt.forever() {
            let serving = self.table.shared.load::<Look<O>>(pass, 1);
            if serving == turn {
                return;
            }
            if looks < LOOKS_BEFORE_SLEEP {
                looks += 1;
                thread::yield_now();
            } else {
                self.sleep_in_line(rt, pass, serving);
            }
        }
        unreachable!()
    }
}
