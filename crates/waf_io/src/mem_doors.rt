ghost use Rattle.std.specs.Prelude.{◌≡◌, ◌≢◌, ◌↔◌, ◌≤◌, ◌+◌, ◌-◌, ◌++◌, [], drop, IfOk, length, map, nat_le, OnErr, OnOk, Some, take, true};
ghost use Rattle.std.specs.List.{All, list_any};
ghost use Rattle.waf_io.specs.Counts.{one_more, Rose};
ghost use Rattle.waf_io.specs.Doors.{after_faults, AreOpened, HasEnded, IsNew, KeepsAll};
ghost use Rattle.waf_io.specs.MemDoor.{blank, copies, door_of, first_doors, GivesDoors, IsUnused, IsUnusedFaulty, new_door};
ghost use Rattle.waf_io.specs.Schedule.{after_call, fails_at, fails_next};

use crate::mem_door::{InfallibleDoor, MemDoor};
use crate::schedule::Schedule;
use crate::stock::Doorkeeper;
use crate::{Doors, Opened, Sink, Source};
use std::alloc::Global;
use std::collections::VecDeque;
use std::marker::Model;
use waf_plain::{NoMemory, Seq};

/// The peers of a door, and the calls of its `next` that are to fail, counted from 0.
#[derive(Drop)]
pub struct MemLane<I, O> {
    pub peers: Seq<(I, O)>,
    pub failing: Seq<u64>,
}

/// Doors in memory. No opening of them fails. Those that came back are kept, in room that is made at their
/// opening.
#[derive(Drop)]
pub struct InfallibleDoors<I, O> {
    doors: Doorkeeper<InfallibleDoor<I, O>>,
}

impl<I, O> Model for InfallibleDoors<I, O> {
    ghost use Rattle.std.specs.List.{All};
    ghost use Rattle.waf_io.specs.MemDoor.{IsUnused, Passing, Stock};

    ghost Value = { Stock (Passing (I × O)) };

    ghost view = { λ s. s.doors };

    ghost invariant = { λ s. All IsUnused s.doors.ready };
}

impl<I: Drop, O: Drop> InfallibleDoors<I, O> {
    /// A door for each list of peers, in this order.
    pub fn new(alloc: Global, lanes: Seq<Seq<(I, O)>>) -> Result<InfallibleDoors<I, O>, NoMemory>
        ensures { IfOk result (λ doors. doors ≡ record { ready = map new_door lanes; returned = []; out = 0 }) }
    {
        let mut doors = VecDeque::new(alloc);
        for peers in lanes.into_vec() {
            doors.push_back(InfallibleDoor::new(alloc, peers)?)?;
        }
        Ok(InfallibleDoors {
            doors: Doorkeeper::new(alloc, doors),
        })
    }

    /// The doors that came back.
    pub fn returned(&self) -> &[InfallibleDoor<I, O>]
        ensures { result.now ≡ self.now.returned }
    {
        self.doors.returned()
    }

    // Opens so many doors, the last of them before no peer where too few are ready.
    fn open(&mut self, alloc: Global, count: usize) -> Result<Seq<InfallibleDoor<I, O>>, NoMemory>
        ensures doors { IfOk result (λ doors. doors ≡ first_doors (new_door []) self.old.ready count) }
        ensures count { IfOk result (λ doors. length doors ≡ count) }
        ensures unused { IfOk result (λ doors. All IsUnused doors) }
        ensures returned { self.new.returned ≡ self.old.returned }
        ensures ok { OnOk result (self.new.out ≡ self.old.out + count) }
        ensures err { OnErr result (self.new.out ≡ self.old.out) }
    {
        self.fill(alloc, count)?;
        self.doors.open(count)
    }

    // Has so many doors ready, the last of them before no peer where there are too few.
    fn fill(&mut self, alloc: Global, count: usize) -> Result<(), NoMemory>
        ensures enough { OnOk result (count ≤ length self.new.ready) }
        ensures ready { OnOk result (self.new.ready ≡ self.old.ready ++ copies (count - length self.old.ready) (new_door [])) }
        ensures returned { self.new.returned ≡ self.old.returned }
        ensures out { self.new.out ≡ self.old.out }
    {
        while self.doors.ready() < count {
            self.doors.add(InfallibleDoor::empty(alloc))?;
        }
        Ok(())
    }
}

impl<I: Source + Drop, O: Sink + Drop> Doors for InfallibleDoors<I, O> {
    type D = InfallibleDoor<I, O>;

    ghost out = { λ s. s.out };

    ghost returned = { λ s. Some s.returned };

    ghost faults = { λ s. 0 };

    fn open_doors(
        &mut self,
        alloc: Global,
        _address: &[u8],
        count: u32,
    ) -> Opened<InfallibleDoor<I, O>>
        ensures opened { AreOpened (IsNew (λ d. Some d.served) (λ d. d.is_out) (λ d. 0) (λ d. d.closings)) result count
            self.old.out self.new.out }
        ensures returned { self.new.returned ≡ self.old.returned }
        ensures fails { result ≢ Opened.Failed }
        ensures doors { GivesDoors result (first_doors (new_door []) self.old.ready count) }
    {
        match self.open(alloc, count as usize) {
            Ok(doors) => Opened::Doors(doors),
            Err(NoMemory) => Opened::NoMemory,
        }
    }

    fn shut(&mut self)
        ensures { self.new ≡ self.old }
    {}

    fn take_back(&mut self, doors: Seq<InfallibleDoor<I, O>>)
        requires within { length doors ≤ self.old.out }
        requires ended { All (HasEnded (λ d. 0) (λ d. d.closings)) doors }
        ensures out { self.new.out + length doors ≡ self.old.out }
        ensures returned { self.new.returned ≡ self.old.returned ++ doors }
        ensures faults { 0 ≡ after_faults (λ d. 0) doors 0 }
        ensures ready { self.new.ready ≡ self.old.ready }
    {
        self.doors.take_back(doors);
    }
}

/// An `InfallibleDoors` over doors that may fail, but that the openings that a list names fail, counted from
/// 0.
#[derive(Drop)]
pub struct MemDoors<I, O> {
    doors: Doorkeeper<MemDoor<I, O>>,
    schedule: Schedule,
    faults: u64,
}

impl<I, O> Model for MemDoors<I, O> {
    ghost use Rattle.std.specs.List.{All};
    ghost use Rattle.waf_io.specs.MemDoor.{FaultyPassing, FaultyStock, IsUnusedFaulty};

    ghost Value = { FaultyStock (FaultyPassing (I × O)) };

    ghost view = { λ s. record { stock = s.doors; schedule = s.schedule; faults = s.faults } };

    ghost invariant = { λ s. All IsUnusedFaulty s.doors.ready };
}

impl<I: Drop, O: Drop> MemDoors<I, O> {
    /// A door for each lane, in this order.
    pub fn new(
        alloc: Global,
        lanes: Seq<MemLane<I, O>>,
        failing: Seq<u64>,
    ) -> Result<MemDoors<I, O>, NoMemory>
        ensures { IfOk result (λ doors. doors ≡ record {
          stock = record { ready = map door_of lanes; returned = []; out = 0 };
          schedule = fails_at failing;
          faults = 0;
        }) }
    {
        let mut doors = VecDeque::new(alloc);
        for lane in lanes.into_vec() {
            let MemLane { peers, failing } = lane;
            doors.push_back(MemDoor::new(alloc, peers, failing)?)?;
        }
        Ok(MemDoors {
            doors: Doorkeeper::new(alloc, doors),
            schedule: Schedule::new(failing),
            faults: 0,
        })
    }

    /// The doors that came back.
    pub fn returned(&self) -> &[MemDoor<I, O>]
        ensures { result.now ≡ self.now.stock.returned }
    {
        self.doors.returned()
    }

    // Opens so many doors, the last of them before no peer where too few are ready.
    fn open(&mut self, alloc: Global, count: usize) -> Result<Seq<MemDoor<I, O>>, NoMemory>
        ensures doors { IfOk result (λ doors. doors ≡ first_doors blank self.old.stock.ready count) }
        ensures count { IfOk result (λ doors. length doors ≡ count) }
        ensures unused { IfOk result (λ doors. All IsUnusedFaulty doors) }
        ensures returned { self.new.stock.returned ≡ self.old.stock.returned }
        ensures ok { OnOk result (self.new.stock.out ≡ self.old.stock.out + count) }
        ensures err { OnErr result (self.new.stock.out ≡ self.old.stock.out) }
        ensures faults { (self.new.faults ≡ self.old.faults) × (self.new.schedule ≡ self.old.schedule) }
    {
        self.fill(alloc, count)?;
        self.doors.open(count)
    }

    // Has so many doors ready, the last of them before no peer where there are too few.
    fn fill(&mut self, alloc: Global, count: usize) -> Result<(), NoMemory>
        ensures enough { OnOk result (count ≤ length self.new.stock.ready) }
        ensures ready { OnOk result (self.new.stock.ready
            ≡ self.old.stock.ready ++ copies (count - length self.old.stock.ready) blank) }
        ensures returned { self.new.stock.returned ≡ self.old.stock.returned }
        ensures out { self.new.stock.out ≡ self.old.stock.out }
        ensures faults { (self.new.faults ≡ self.old.faults) × (self.new.schedule ≡ self.old.schedule) }
    {
        while self.doors.ready() < count {
            self.doors.add(MemDoor::empty(alloc))?;
        }
        Ok(())
    }

    // Counts a fault.
    fn count_fault(&mut self)
        ensures later { self.old.faults ≤ self.new.faults }
        ensures counted { self.new ≡ record self.old { faults = one_more self.old.faults } }
    {
        self.faults = self.faults.saturating_add(1);
    }
}

impl<I: Source + Drop, O: Sink + Drop> Doors for MemDoors<I, O> {
    type D = MemDoor<I, O>;

    ghost out = { λ s. s.stock.out };

    ghost returned = { λ s. Some s.stock.returned };

    ghost faults = { λ s. s.faults };

    fn open_doors(&mut self, alloc: Global, _address: &[u8], count: u32) -> Opened<MemDoor<I, O>>
        ensures opened { AreOpened
            (IsNew (λ d. Some d.passing.served) (λ d. d.passing.is_out) (λ d. d.schedule.faults) (λ d. d.passing.closings))
            result count self.old.stock.out self.new.stock.out }
        ensures returned { self.new.stock.returned ≡ self.old.stock.returned }
        ensures later { self.old.faults ≤ self.new.faults }
        ensures cause { result ≡ Opened.Failed → Rose self.old.faults self.new.faults }
        ensures fails { (result ≡ Opened.Failed) ↔ (fails_next self.old.schedule ≡ true) }
        ensures counted { self.new.schedule ≡ after_call self.old.schedule }
        ensures doors { GivesDoors result (first_doors blank self.old.stock.ready count) }
    {
        if self.schedule.fails_next() {
            self.count_fault();
            return Opened::Failed;
        }
        match self.open(alloc, count as usize) {
            Ok(doors) => Opened::Doors(doors),
            Err(NoMemory) => Opened::NoMemory,
        }
    }

    fn shut(&mut self)
        ensures { self.new ≡ self.old }
    {}

    fn take_back(&mut self, doors: Seq<MemDoor<I, O>>)
        requires within { length doors ≤ self.old.stock.out }
        requires ended { All (HasEnded (λ d. d.schedule.faults) (λ d. d.passing.closings)) doors }
        ensures out { self.new.stock.out + length doors ≡ self.old.stock.out }
        ensures returned { self.new.stock.returned ≡ self.old.stock.returned ++ doors }
        ensures faults { self.new.faults ≡ after_faults (λ d. d.schedule.faults) doors self.old.faults }
        ensures ready { self.new.stock.ready ≡ self.old.stock.ready }
    {
        if any_failed(doors.as_slice()) {
            self.count_fault();
        }
        self.doors.take_back(doors);
    }
}

// Whether one of the doors has failed.
fn any_failed<I, O>(doors: &[MemDoor<I, O>]) -> bool
    ensures { result ≡ list_any (λ d. nat_le 1 d.schedule.faults) doors.now }
{
    for door in doors {
        if door.has_failed() {
            return true;
        }
    }
    false
}
