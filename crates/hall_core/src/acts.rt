//! A call by its kind, for who keeps a list of calls and replies.
ghost use Rattle.hall_core.specs.Acted.{Acted};
ghost use Rattle.hall_core.specs.Step.{may};
ghost use Rattle.hall_core.specs.declared.calls.Call.{Call};

use crate::Key;
use crate::calls::{Call, Reply, Ticket};
use crate::hall::Hall;

impl<P> Hall<P> {
    /// Makes a call.
    pub fn act(&mut self, call: Call<P>) -> Reply<P>
        requires { may self.old call }
        ensures { Acted self.old call result self.new }
    {
        match call {
            Call::Enter(key) => self.act_enter(key),
            Call::Park(ticket, deadline, value) => self.act_park(ticket, deadline, value),
            Call::Leave(ticket) => self.act_leave(ticket),
            Call::Resume(key) => self.act_resume(key),
            Call::Expire(now) => self.act_expire(now),
            Call::Count => self.act_count(),
        }
    }

    fn act_enter(&mut self, key: Key) -> Reply<P>
        ensures { Acted self.old (Call.Enter key) result self.new }
    {
        Reply::OfEnter(self.enter(key))
    }

    fn act_park(&mut self, ticket: Ticket, deadline: u64, value: P) -> Reply<P>
        requires { may self.old (Call.Park ticket deadline value) }
        ensures { Acted self.old (Call.Park ticket deadline value) result self.new }
    {
        self.park(ticket, deadline, value);
        Reply::OfPark
    }

    fn act_leave(&mut self, ticket: Ticket) -> Reply<P>
        requires { may self.old (Call.Leave ticket) }
        ensures { Acted self.old (Call.Leave ticket) result self.new }
    {
        self.leave(ticket);
        Reply::OfLeave
    }

    fn act_resume(&mut self, key: Key) -> Reply<P>
        ensures { Acted self.old (Call.Resume key) result self.new }
    {
        Reply::OfResume(self.resume(&key))
    }

    fn act_expire(&mut self, now: u64) -> Reply<P>
        ensures { Acted self.old (Call.Expire now) result self.new }
    {
        Reply::OfExpire(self.expire(now))
    }

    fn act_count(&mut self) -> Reply<P>
        ensures { Acted self.old Call.Count result self.new }
    {
        Reply::OfCount(self.counts())
    }
}
