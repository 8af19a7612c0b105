//! The tables, as the host of a connection.
use crate::begun::JudgeBegun;
use crate::judge::Judge;
use crate::judged::{self, Judged};
use crate::rules::SharedRules;
use crate::tables::Tables;
use conn_core::{BegunAnswer, EndedAnswer, EntryAnswer, LookAnswer, Seen, Settings};
use conn_loop::Host;
use hall_core::{Claim, Entry, Key, Ticket};
use shelf::Look;
use waf_plain::NoMemory;
use web_parts::{Request, Response};

impl<J: Judge> Host<SharedRules, Judged<J>, Ticket> for Tables<J> {
    ghost use Rattle.std.specs.Arc.{arc_value};
    ghost use Rattle.world_core.specs.Serving.{Serves, SharedDesk, desk_of};
    ghost use Rattle.world_core.specs.Standing.{Runs};

    ghost Desk = { SharedDesk };

    ghost desk = { desk_of };

    ghost Fixed = { Unit {0} };

    ghost fixed = { λ tables. tt };

    ghost ready = { λ tables. Unit {0} };

    ghost serves = { Serves arc_value };

    ghost holds = { λ desk ticket. Runs desk.halls ticket };

    fn look(&mut self, app: &[u8]) -> LookAnswer<SharedRules> {
        match self.shelf.look(app) {
            Look::Found {
                generation,
                rules,
                settings,
            } => LookAnswer::Found {
                rules: SharedRules {
                    generation,
                    handle: rules,
                },
                settings: Settings {
                    responses: settings.responses,
                    life: settings.life,
                },
            },
            Look::UnknownApp { .. } => LookAnswer::UnknownApp,
            Look::NoMemory => {
                self.starved = true;
                LookAnswer::NoMemory
            }
        }
    }

    fn enter(&mut self, key: Key) -> EntryAnswer<Ticket> {
        match self.shards.enter(key) {
            Entry::Entered(ticket) => EntryAnswer::Entered(ticket),
            Entry::IdInUse(_) => EntryAnswer::IdInUse,
            Entry::Full(_) => EntryAnswer::Full,
            Entry::Worn(_) => EntryAnswer::Worn,
        }
    }

    fn begin(&mut self, rules: SharedRules, request: Request) -> BegunAnswer<Judged<J>> {
        match judged::begin(&self.judge, self.alloc, rules, request) {
            Ok(JudgeBegun::Interrupted { verdict, lines }) => {
                self.seen = Seen::Lines(lines);
                BegunAnswer::Interrupted(verdict)
            }
            Ok(JudgeBegun::Goes { half, lines }) => {
                self.seen = Seen::Lines(lines);
                BegunAnswer::Goes(half)
            }
            Err(NoMemory) => {
                self.starved = true;
                BegunAnswer::NoMemory
            }
        }
    }

    fn park(&mut self, ticket: Ticket, life: u64, half: Judged<J>) {
        let deadline = self.moment.saturating_add(life);
        self.shards.park(ticket, deadline, half);
    }

    fn leave(&mut self, ticket: Ticket) {
        self.shards.leave(ticket);
    }

    fn resume(&mut self, key: Key) -> Option<Judged<J>> {
        match self.shards.resume(&key) {
            Claim::Resumed { value, .. } => Some(value),
            Claim::NotParked => None,
        }
    }

    fn finish(&mut self, half: Judged<J>, response: Response) -> EndedAnswer {
        match judged::finish(&self.judge, self.alloc, half, response) {
            Ok(ended) => {
                self.seen = Seen::Lines(ended.lines);
                EndedAnswer::Verdict(ended.verdict)
            }
            Err(NoMemory) => {
                self.starved = true;
                EndedAnswer::NoMemory
            }
        }
    }

    fn retire(&mut self, half: Judged<J>) -> bool {
        match judged::retire(&self.judge, self.alloc, half) {
            Ok(lines) => {
                self.seen = Seen::Lines(lines);
                true
            }
            Err(NoMemory) => false,
        }
    }

    fn written(&mut self) {}
}
