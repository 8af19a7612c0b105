//! What the one connection of `once` asks for: the rules, the table of transactions and the judge.
ghost use Rattle.std.specs.Prelude.{◌≡◌, IfOk};
ghost use Rattle.std.specs.Arc.{arc_value};
ghost use Rattle.conn_core.specs.Calls.{claim_of, entry_of};
ghost use Rattle.conn_loop.specs.Answered.{begun_replies, ended_replies};
ghost use Rattle.hall_core.specs.Step.{IsNew};
ghost use Rattle.agent_main.specs.Judge.{claimed, ended, entered, Given, judged};
ghost use Rattle.agent_main.specs.declared.judge.TheConstants.{CAPACITY, SHARD};

use crate::verdicts::{begun, finished, retired};
use conn_core::{BegunAnswer, EndedAnswer, EntryAnswer, LookAnswer, Settings};
use conn_loop::Host;
use hall_core::{Claim, Entry, Hall, Key, Ticket};
use sec_compile::Ruleset;
use std::alloc::Global;
use std::sync::Arc;
use tx_core::{Begun, Ended, Half};
use waf_plain::NoMemory;
use web_parts::{Request, Response};

// How long a request waits for its response, in milliseconds.
pub const LIFE: u64 = 60000;

// The table has one shard, and room for so many requests.
pub const SHARD: u32 = 0;

pub const CAPACITY: u32 = 1000;

// What stands for the rules, which every application has.
#[derive(Clone, Copy, Debug, PartialEq, Eq)]
pub struct TheRules {}

#[derive(Drop)]
pub struct OnceHost {
    alloc: Global,
    rules: Arc<Ruleset, Global>,
    hall: Hall<Half>,
}

impl OnceHost {
    // Under these rules, with an empty table.
    pub fn new(alloc: Global, rules: Ruleset) -> Result<OnceHost, NoMemory>
        ensures rules { IfOk result (λ host. arc_value host.rules ≡ rules) }
        ensures table { IfOk result (λ host. IsNew SHARD CAPACITY host.hall) }
    {
        let rules = Arc::new(alloc, rules)?;
        let hall = Hall::new(alloc, SHARD, CAPACITY)?;
        Ok(OnceHost { alloc, rules, hall })
    }
}

impl Host<TheRules, Half, Ticket> for OnceHost {
    ghost use Rattle.std.specs.Arc.{arc_value};
    ghost use Rattle.agent_main.specs.Judge.{Desk, holds, serves};

    ghost Desk = { Desk };

    ghost desk = { λ h. record { rules = arc_value h.rules; table = h.hall } };

    ghost Fixed = { Unit {0} };

    ghost fixed = { λ h. tt };

    ghost ready = { λ h. Unit {0} };

    ghost serves = { serves };

    ghost holds = { holds };

    fn look(&mut self, _app: &[u8]) -> LookAnswer<TheRules> {
        LookAnswer::Found {
            rules: TheRules {},
            settings: Settings {
                responses: true,
                life: LIFE,
            },
        }
    }

    fn enter(&mut self, key: Key) -> EntryAnswer<Ticket> {
        entry_answer(self.hall.enter(key))
    }

    fn begin(&mut self, _rules: TheRules, request: Request) -> BegunAnswer<Half> {
        begun_answer(self.alloc, &self.rules, request)
    }

    // There is no clock, and each moment is 0: nothing expires.
    fn park(&mut self, ticket: Ticket, life: u64, half: Half) {
        self.hall.park(ticket, life, half);
    }

    fn leave(&mut self, ticket: Ticket) {
        self.hall.leave(ticket);
    }

    fn resume(&mut self, key: Key) -> Option<Half> {
        claimed_half(self.hall.resume(&key))
    }

    fn finish(&mut self, half: Half, response: Response) -> EndedAnswer {
        ended_answer(self.alloc, half, response)
    }

    // The last phase of a request whose response is not judged; nobody asks for its lines.
    fn retire(&mut self, half: Half) -> bool {
        retired(self.alloc, half).is_ok()
    }

    fn written(&mut self) {}
}

fn entry_answer(entry: Entry) -> EntryAnswer<Ticket>
    ensures reply { entry_of result ≡ entered entry }
    ensures ticket { (ticket : _) → result ≡ EntryAnswer.Entered ticket → entry ≡ Entry.Entered ticket }
{
    match entry {
        Entry::Entered(ticket) => EntryAnswer::Entered(ticket),
        Entry::IdInUse(_) => EntryAnswer::IdInUse,
        Entry::Full(_) => EntryAnswer::Full,
        Entry::Worn(_) => EntryAnswer::Worn,
    }
}

fn begun_answer(alloc: Global, rules: &Arc<Ruleset, Global>, request: Request) -> BegunAnswer<Half>
    ensures { Given (begun_replies result) (judged (arc_value rules.now) request) }
{
    match begun(alloc, rules, request) {
        Ok(Begun::Interrupted { verdict, .. }) => BegunAnswer::Interrupted(verdict),
        Ok(Begun::Goes { half, .. }) => BegunAnswer::Goes(half),
        Err(NoMemory) => BegunAnswer::NoMemory,
    }
}

fn claimed_half(claim: Claim<Half>) -> Option<Half>
    ensures { claim_of result ≡ claimed claim }
{
    match claim {
        Claim::Resumed { value, .. } => Some(value),
        Claim::NotParked => None,
    }
}

// By the rules of the half itself.
fn ended_answer(alloc: Global, half: Half, response: Response) -> EndedAnswer
    ensures { Given (ended_replies result) (ended half response) }
{
    match finished(alloc, half, response) {
        Ok(Ended { verdict, .. }) => EndedAnswer::Verdict(verdict),
        Err(NoMemory) => EndedAnswer::NoMemory,
    }
}
