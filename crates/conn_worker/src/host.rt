//! A worker, as the host of a connection.
use crate::answers::{begun_answer, claimed_half, ended_answer, entry_answer, look};
use crate::judge::ends;
use crate::rules::SharedRules;
use crate::turns::{enter, leave, park, resume};
use crate::worker::Worker;
use conn_core::{BegunAnswer, EndedAnswer, EntryAnswer, LookAnswer};
use conn_loop::Host;
use hall_core::{Key, Ticket};
use std::sync::Wait;
use tx_core::Half;
use waf_io::{Clock, Gate, Point};
use web_parts::{Request, Response};

impl<W: Wait, C: Clock, G: Gate> Host<SharedRules, Half, Ticket> for Worker<'_, W, C, G> {
    ghost use Rattle.turn_lock.specs.Lock.{share_of};
    ghost use Rattle.hall.specs.Passes.{IsPassOfHall};
    ghost use Rattle.conn_worker.specs.Entries.{Held, IsPassOfShelf, shares_of};
    ghost use Rattle.conn_worker.specs.Desk.{Desk, desk_of, passes, Stand};
    ghost use Rattle.conn_worker.specs.Serving.{Serves};

    ghost Desk = { Desk };

    ghost desk = { λ w. desk_of (C.told w.clock.now) w.moment (passes w.desk_pass.now w.rules_pass.now) };

    ghost Fixed = { Stand };

    ghost fixed = { λ w. record {
      hall = w.desk.now;
      shelf = w.rules.now;
      told = C.told w.clock.now;
      desk_name = w.desk_pass.ghost_name;
      rules_name = w.rules_pass.ghost_name;
      desk_shares = shares_of w.desk_pass.now;
      rules_share = share_of w.rules_pass.now;
    } };

    ghost ready = { λ w. IsPassOfHall w.desk.now w.desk_pass.now × IsPassOfShelf w.rules.now w.rules_pass.now };

    ghost serves = { Serves };

    ghost holds = { λ desk ticket. Held desk.lists ticket };

    fn look(&mut self, app: &[u8]) -> LookAnswer<SharedRules> {
        look(self.rt, self.alloc, self.rules, self.rules_pass, app)
    }

    // The clock is read here alone, once a request.
    fn enter(&mut self, key: Key) -> EntryAnswer<Ticket> {
        self.moment = self.clock.now();
        entry_answer(enter(
            self.rt,
            self.alloc,
            self.desk,
            self.desk_pass,
            key,
            self.moment,
        ))
    }

    fn begin(&mut self, rules: SharedRules, request: Request) -> BegunAnswer<Half> {
        self.gate.pass(self.rt, Point::Judge(self.worker));
        begun_answer(self.alloc, rules, request)
    }

    fn park(&mut self, ticket: Ticket, life: u64, half: Half) {
        let deadline = self.moment.saturating_add(life);
        park(self.rt, self.desk, self.desk_pass, ticket, deadline, half);
    }

    fn leave(&mut self, ticket: Ticket) {
        leave(self.rt, self.desk, self.desk_pass, ticket);
    }

    fn resume(&mut self, key: Key) -> Option<Half> {
        claimed_half(resume(self.rt, self.desk, self.desk_pass, key))
    }

    fn finish(&mut self, half: Half, response: Response) -> EndedAnswer {
        self.gate.pass(self.rt, Point::Judge(self.worker));
        ended_answer(self.alloc, half, response)
    }

    // The lines of its last phase are dropped.
    fn retire(&mut self, half: Half) -> bool {
        ends(self.alloc, half)
    }

    fn written(&mut self) {
        self.gate.pass(self.rt, Point::Written(self.worker));
    }
}
