//! What a connection is told of a look, a row, a claim and a judgement.
ghost use Rattle.std.specs.Prelude.{◌≡◌, ◌∷◌, []};
ghost use Rattle.turn_lock.specs.Lock.{own_of, share_of};
ghost use Rattle.hall_core.specs.declared.calls.Ticket.{Ticket};
ghost use Rattle.conn_core.specs.Calls.{claim_of, entry_of};
ghost use Rattle.conn_loop.specs.Answered.{begun_replies, ended_replies, look_replies};
ghost use Rattle.conn_worker.specs.Entries.{IsPassOfShelf};
ghost use Rattle.conn_worker.specs.Serving.{claim_reply, entry_reply, IsBegun, IsFinished, IsLookedUp, looked};

use crate::judge::{begun, finished};
use crate::rules::{Handle, SharedRules};
use conn_core::{BegunAnswer, EndedAnswer, EntryAnswer, LookAnswer, Settings};
use hall_core::{Claim, Entry, Ticket};
use shelf::Look;
use shelf_lock::{SharedShelf, ShelfPass};
use std::alloc::Global;
use std::sync::Wait;
use tx_core::{Begun, Ended, Half};
use waf_plain::{Bytes, NoMemory};
use web_parts::{Request, Response};

// Looks for an application.
pub fn look<W: Wait>(
    rt: &W,
    alloc: Global,
    rules: &SharedShelf<Handle>,
    pass: &mut ShelfPass<Handle>,
    app: &[u8],
) -> LookAnswer<SharedRules>
    requires { IsPassOfShelf rules.now pass.old }
    ensures shelf { IsPassOfShelf rules.now pass.new }
    ensures share { share_of pass.new ≡ share_of pass.old }
    ensures looked { IsLookedUp app.now (look_replies result) (own_of pass.old) (own_of pass.new) }
{
    match Bytes::copy(alloc, app) {
        Ok(name) => look_answer(rules.look(rt, pass, name)),
        Err(NoMemory) => LookAnswer::NoMemory,
    }
}

fn look_answer(look: Look<Handle>) -> LookAnswer<SharedRules>
    ensures { look_replies result ≡ looked look }
{
    match look {
        Look::Found {
            generation,
            rules,
            settings,
        } => LookAnswer::Found {
            rules: SharedRules {
                generation,
                handle: rules,
            },
            settings: Settings {
                responses: settings.responses,
                life: settings.life,
            },
        },
        Look::UnknownApp { .. } => LookAnswer::UnknownApp,
        Look::NoMemory => LookAnswer::NoMemory,
    }
}

pub fn entry_answer(entry: Entry) -> EntryAnswer<Ticket>
    ensures reply { entry_of result ≡ entry_reply entry }
    ensures ticket { (ticket : Ticket) → result ≡ EntryAnswer.Entered ticket → entry ≡ Entry.Entered ticket }
{
    match entry {
        Entry::Entered(ticket) => EntryAnswer::Entered(ticket),
        Entry::IdInUse(_) => EntryAnswer::IdInUse,
        Entry::Full(_) => EntryAnswer::Full,
        Entry::Worn(_) => EntryAnswer::Worn,
    }
}

pub fn claimed_half(claim: Claim<Half>) -> Option<Half>
    ensures { claim_of result ≡ claim_reply claim }
{
    match claim {
        Claim::Resumed { value, .. } => Some(value),
        Claim::NotParked => None,
    }
}

// By the rules that the look gave.
pub fn begun_answer(alloc: Global, rules: SharedRules, request: Request) -> BegunAnswer<Half>
    ensures { IsBegun rules request (begun_replies result) }
{
    match begun(alloc, rules, request) {
        Ok(Begun::Interrupted { verdict, .. }) => BegunAnswer::Interrupted(verdict),
        Ok(Begun::Goes { half, .. }) => BegunAnswer::Goes(half),
        Err(NoMemory) => BegunAnswer::NoMemory,
    }
}

// By the rules of the half itself.
pub fn ended_answer(alloc: Global, half: Half, response: Response) -> EndedAnswer
    ensures { IsFinished half response (ended_replies result) }
{
    match finished(alloc, half, response) {
        Ok(Ended { verdict, .. }) => EndedAnswer::Verdict(verdict),
        Err(NoMemory) => EndedAnswer::NoMemory,
    }
}
