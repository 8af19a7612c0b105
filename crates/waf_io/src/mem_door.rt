ghost use Rattle.std.specs.Prelude.{◌≡◌, ◌≢◌, ◌↔◌, ◌≤◌, [], false, IfOk, nat_le, Some, true};
ghost use Rattle.waf_io.specs.Counts.{Rose};
ghost use Rattle.waf_io.specs.Door.{Comes, CountsClosed, gave_peer, Keeps};
ghost use Rattle.waf_io.specs.MemDoor.{new_door};
ghost use Rattle.waf_io.specs.Schedule.{after_call, fails_at, fails_next};

use crate::schedule::Schedule;
use crate::{Came, Door, Sink, Source};
use std::alloc::Global;
use std::collections::VecDeque;
use std::marker::Model;
use std::sync::Wait;
use waf_plain::{NoMemory, Seq};

/// A door in memory, before peers that were given to it. None of its calls fails. It keeps the peers that
/// came back, in room that was made before.
#[derive(Drop)]
pub struct InfallibleDoor<I, O> {
    left: VecDeque<(I, O)>,
    served: Vec<(I, O)>,
    is_out: bool,
    closings: u64,
}

impl<I, O> Model for InfallibleDoor<I, O> {
    ghost use Rattle.std.specs.Prelude.{◌+◌, ◌≤◌, cond, length, vec_capacity};
    ghost use Rattle.waf_io.specs.MemDoor.{Passing};

    ghost Value = { Passing (I × O) };

    ghost view = { λ s. record {
      left = s.left.items;
      served = s.served.items;
      is_out = s.is_out;
      closings = s.closings;
    } };

    ghost invariant = { λ s. length s.left.items + length s.served.items + cond s.is_out 1 0 ≤ vec_capacity s.served };
}

impl<I, O> InfallibleDoor<I, O> {
    /// A door before no peer. It takes no memory.
    pub fn empty(alloc: Global) -> InfallibleDoor<I, O>
        ensures { result ≡ new_door [] }
    {
        InfallibleDoor {
            left: VecDeque::new(alloc),
            served: Vec::new(alloc),
            is_out: false,
            closings: 0,
        }
    }

    /// The peers that came back.
    pub fn served(&self) -> &[(I, O)]
        ensures { result.now ≡ self.now.served }
    {
        self.served.as_slice()
    }
}

impl<I: Drop, O: Drop> InfallibleDoor<I, O> {
    /// A door before these peers.
    pub fn new(alloc: Global, peers: Seq<(I, O)>) -> Result<InfallibleDoor<I, O>, NoMemory>
        ensures { IfOk result (λ door. door ≡ new_door peers) }
    {
        let served = Vec::with_capacity(alloc, peers.len() as usize)?;
        Ok(InfallibleDoor {
            left: VecDeque::from(peers.into_vec()),
            served,
            is_out: false,
            closings: 0,
        })
    }
}

impl<I: Source, O: Sink> Door for InfallibleDoor<I, O> {
    type In = I;

    type Out = O;

    ghost left = { λ s. Some s.left };

    ghost served = { λ s. Some s.served };

    ghost is_out = { λ s. s.is_out };

    ghost faults = { λ s. 0 };

    ghost closings = { λ s. s.closings };

    fn next<W: Wait>(&mut self, _rt: &W) -> Came<I, O>
        requires home { self.old.is_out ≡ false }
        ensures peer { Comes result (Some self.old.left) (Some self.new.left) }
        ensures served { self.new.served ≡ self.old.served }
        ensures out { self.new.is_out ≡ gave_peer result }
        ensures closed { CountsClosed result self.old.closings self.new.closings }
        ensures fails { result ≢ Came.Failed }
        ensures ends { (result ≡ Came.Closed) ↔ (self.old.left ≡ []) }
    {
        match self.left.pop_front() {
            Some((source, sink)) => {
                self.is_out = true;
                Came::Peer(source, sink)
            }
            None => {
                self.closings = self.closings.saturating_add(1);
                Came::Closed
            }
        }
    }

    fn back(&mut self, source: I, sink: O) {
        self.served.push_reserved((source, sink));
        self.is_out = false;
    }
}

/// An `InfallibleDoor` but that the calls of `next` that a list names fail, counted from 0.
#[derive(Drop)]
pub struct MemDoor<I, O> {
    door: InfallibleDoor<I, O>,
    schedule: Schedule,
}

impl<I, O> Model for MemDoor<I, O> {
    ghost use Rattle.waf_io.specs.MemDoor.{FaultyPassing};

    ghost Value = { FaultyPassing (I × O) };

    ghost view = { λ s. record { passing = s.door; schedule = s.schedule } };
}

impl<I, O> MemDoor<I, O> {
    /// A door before no peer, of which no call fails. It takes no memory.
    pub fn empty(alloc: Global) -> MemDoor<I, O>
        ensures { result ≡ record { passing = new_door []; schedule = fails_at [] } }
    {
        MemDoor {
            door: InfallibleDoor::empty(alloc),
            schedule: Schedule::new(Seq::new(alloc)),
        }
    }

    /// The peers that came back.
    pub fn served(&self) -> &[(I, O)]
        ensures { result.now ≡ self.now.passing.served }
    {
        self.door.served()
    }

    // Whether one of its calls has failed.
    pub(crate) fn has_failed(&self) -> bool
        ensures { result ≡ nat_le 1 self.now.schedule.faults }
    {
        self.schedule.has_failed()
    }
}

impl<I: Drop, O: Drop> MemDoor<I, O> {
    /// A door before these peers, failing at the calls that the list names.
    pub fn new(
        alloc: Global,
        peers: Seq<(I, O)>,
        failing: Seq<u64>,
    ) -> Result<MemDoor<I, O>, NoMemory>
        ensures { IfOk result (λ door. door ≡ record { passing = new_door peers; schedule = fails_at failing }) }
    {
        let door = InfallibleDoor::new(alloc, peers)?;
        Ok(MemDoor {
            door,
            schedule: Schedule::new(failing),
        })
    }
}

impl<I: Source, O: Sink> Door for MemDoor<I, O> {
    type In = I;

    type Out = O;

    ghost left = { λ s. Some s.passing.left };

    ghost served = { λ s. Some s.passing.served };

    ghost is_out = { λ s. s.passing.is_out };

    ghost faults = { λ s. s.schedule.faults };

    ghost closings = { λ s. s.passing.closings };

    fn next<W: Wait>(&mut self, rt: &W) -> Came<I, O>
        requires home { self.old.passing.is_out ≡ false }
        ensures peer { Comes result (Some self.old.passing.left) (Some self.new.passing.left) }
        ensures served { self.new.passing.served ≡ self.old.passing.served }
        ensures out { self.new.passing.is_out ≡ gave_peer result }
        ensures later { self.old.schedule.faults ≤ self.new.schedule.faults }
        ensures cause { result ≡ Came.Failed → Rose self.old.schedule.faults self.new.schedule.faults }
        ensures closed { CountsClosed result self.old.passing.closings self.new.passing.closings }
        ensures fails { (result ≡ Came.Failed) ↔ (fails_next self.old.schedule ≡ true) }
        ensures counted { self.new.schedule ≡ after_call self.old.schedule }
        ensures ends { (result ≡ Came.Closed) ↔ ((fails_next self.old.schedule ≡ false) × (self.old.passing.left ≡ [])) }
    {
        if self.schedule.fails_next() {
            return Came::Failed;
        }
        self.door.next(rt)
    }

    fn back(&mut self, source: I, sink: O) {
        self.door.back(source, sink);
    }
}
