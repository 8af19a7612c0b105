//! The calls.
ghost use Rattle.std.specs.Prelude.{◌≡◌, IfOk};
ghost use Rattle.hall_core.specs.Step.{IsNew, after, allows, may};
ghost use Rattle.hall_core.specs.declared.calls.Call.{Call};
ghost use Rattle.hall_core.specs.declared.calls.Reply.{Reply};

use crate::calls::{Claim, Entry, Expiry, Ticket};
use crate::hall::Hall;
use crate::rows::Rows;
use crate::{Counts, Key};
use std::alloc::Global;
use waf_plain::NoMemory;

impl<P> Hall<P> {
    /// A shard of this number without rows, for at most so many.
    pub fn new(alloc: Global, shard: u32, capacity: u32) -> Result<Hall<P>, NoMemory>
        ensures { IfOk result (λ hall. IsNew shard capacity hall) }
    {
        let rows = Rows::new(alloc, capacity)?;
        Ok(Hall {
            shard,
            capacity,
            given: 0,
            rows,
        })
    }

    /// A row for this key, which runs, and its ticket.
    pub fn enter(&mut self, key: Key) -> Entry
        ensures reply { allows self.old (Call.Enter key) (Reply.OfEnter result) }
        ensures state { self.new ≡ after self.old (Call.Enter key) (Reply.OfEnter result) }
    {
        if let Some(at) = self.rows.place_of_key(&key) {
            return Entry::IdInUse(self.rows.get(at).number);
        }
        if self.rows.len() == self.capacity {
            return Entry::Full(u64::from(self.capacity));
        }
        if self.given == u64::MAX {
            return Entry::Worn(self.given);
        }
        self.given += 1;
        let number = self.given;
        self.rows.enter(key, number);
        Entry::Entered(Ticket {
            shard: self.shard,
            number,
        })
    }

    /// Parks the ticket's row.
    pub fn park(&mut self, ticket: Ticket, deadline: u64, value: P)
        requires running { may self.old (Call.Park ticket deadline value) }
        ensures { self.new ≡ after self.old (Call.Park ticket deadline value) Reply.OfPark }
    {
        self.rows.park(ticket.number, deadline, value);
    }

    /// Takes the ticket's row away.
    pub fn leave(&mut self, ticket: Ticket)
        requires running { may self.old (Call.Leave ticket) }
        ensures { self.new ≡ after self.old (Call.Leave ticket) Reply.OfLeave }
    {
        self.rows.leave(ticket.number);
    }

    /// Claims what is parked under a key.
    pub fn resume(&mut self, key: &Key) -> Claim<P>
        ensures reply { allows self.old (Call.Resume key.now) (Reply.OfResume result) }
        ensures state { self.new ≡ after self.old (Call.Resume key.now) (Reply.OfResume result) }
    {
        self.rows.resume(key)
    }

    /// Claims what is due first at a moment.
    pub fn expire(&mut self, now: u64) -> Expiry<P>
        ensures reply { allows self.old (Call.Expire now) (Reply.OfExpire result) }
        ensures state { self.new ≡ after self.old (Call.Expire now) (Reply.OfExpire result) }
    {
        self.rows.expire(now)
    }

    /// How many rows there are.
    pub fn counts(&self) -> Counts
        ensures { allows self.now Call.Count (Reply.OfCount result) }
    {
        let running = self.rows.count_running();
        Counts {
            running: u64::from(running),
            parked: u64::from(self.rows.len() - running),
        }
    }
}
