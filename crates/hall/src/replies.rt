//! The replies, each by the kind of its call.
ghost use Rattle.std.specs.Prelude.{◌≡◌, ℕ};
ghost use Rattle.hall_core.specs.declared.calls.Call.{Call};
ghost use Rattle.hall_core.specs.declared.calls.Reply.{Reply};
ghost use Rattle.hall_core.specs.declared.Key.{Key};
ghost use Rattle.hall_core.specs.declared.calls.Ticket.{Ticket};
ghost use Rattle.hall.specs.Passes.{Answered};

use hall_core::{Claim, Counts, Entry, Expiry, Reply};

pub(crate) fn entry_of<P>(reply: Reply<P>) -> Entry
    requires { (key : Key) × Answered (Call.Enter key) reply }
    ensures { reply ≡ Reply.OfEnter result }
{
    match reply {
        Reply::OfEnter(entry) => entry,
        _ => unreachable!(),
    }
}

pub(crate) fn parked_of<P>(reply: Reply<P>)
    requires { (ticket : Ticket) × (deadline : ℕ) × (value : P) × Answered (Call.Park ticket deadline value) reply }
    ensures { reply ≡ Reply.OfPark }
{
    match reply {
        Reply::OfPark => {},
        _ => unreachable!(),
    }
}

pub(crate) fn left_of<P>(reply: Reply<P>)
    requires { (ticket : Ticket) × Answered (Call.Leave ticket) reply }
    ensures { reply ≡ Reply.OfLeave }
{
    match reply {
        Reply::OfLeave => {},
        _ => unreachable!(),
    }
}

pub(crate) fn claim_of<P>(reply: Reply<P>) -> Claim<P>
    requires { (key : Key) × Answered (Call.Resume key) reply }
    ensures { reply ≡ Reply.OfResume result }
{
    match reply {
        Reply::OfResume(claim) => claim,
        _ => unreachable!(),
    }
}

pub(crate) fn expiry_of<P>(reply: Reply<P>) -> Expiry<P>
    requires { (now : ℕ) × Answered (Call.Expire now) reply }
    ensures { reply ≡ Reply.OfExpire result }
{
    match reply {
        Reply::OfExpire(expiry) => expiry,
        _ => unreachable!(),
    }
}

pub(crate) fn counts_of<P>(reply: Reply<P>) -> Counts
    requires { Answered Call.Count reply }
    ensures { reply ≡ Reply.OfCount result }
{
    match reply {
        Reply::OfCount(counts) => counts,
        _ => unreachable!(),
    }
}
