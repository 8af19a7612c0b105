ghost use Rattle.std.specs.Prelude.{◌≡◌, ◌≤◌, ◌+◌, ◌-◌, ◌++◌, ◌∷◌, [], drop, IfOk, length, OnErr, OnOk, take};

use std::alloc::Global;
use std::collections::VecDeque;
use std::marker::Model;
use std::mem;
use waf_plain::{NoMemory, Seq};

// Doors that are made before they are opened, and kept when they came back, in room that was made at their
// opening.
#[derive(Drop)]
pub(crate) struct Doorkeeper<D> {
    ready: VecDeque<D>,
    returned: Vec<D>,
    out: usize,
}

impl<D> Model for Doorkeeper<D> {
    ghost use Rattle.std.specs.Prelude.{◌+◌, ◌≤◌, length, vec_capacity};
    ghost use Rattle.waf_io.specs.MemDoor.{Stock};

    ghost Value = { Stock D };

    ghost view = { λ s. record { ready = s.ready.items; returned = s.returned.items; out = s.out } };

    ghost invariant = { λ s. length s.returned.items + s.out ≤ vec_capacity s.returned };
}

impl<D: Drop> Doorkeeper<D> {
    // These doors, of which none is open.
    pub(crate) fn new(alloc: Global, ready: VecDeque<D>) -> Doorkeeper<D>
        ensures { result ≡ record { ready = ready.items; returned = []; out = 0 } }
    {
        Doorkeeper {
            ready,
            returned: Vec::new(alloc),
            out: 0,
        }
    }

    // How many can be opened.
    pub(crate) fn ready(&self) -> usize
        ensures { result ≡ length self.now.ready }
    {
        self.ready.len()
    }

    // The doors that came back.
    pub(crate) fn returned(&self) -> &[D]
        ensures { result.now ≡ self.now.returned }
    {
        self.returned.as_slice()
    }

    // One door more, behind the others.
    pub(crate) fn add(&mut self, door: D) -> Result<(), NoMemory>
        ensures ok { OnOk result (self.new ≡ record self.old { ready = self.old.ready ++ door ∷ [] }) }
        ensures err { OnErr result (self.new ≡ self.old) }
    {
        self.ready.push_back(door)?;
        Ok(())
    }

    // Opens the first doors.
    pub(crate) fn open(&mut self, count: usize) -> Result<Seq<D>, NoMemory>
        requires { count ≤ length self.old.ready }
        ensures doors { IfOk result (λ doors. doors ≡ take count self.old.ready) }
        ensures ok { OnOk result (self.new ≡ record self.old {
          ready = drop count self.old.ready;
          out = self.old.out + count;
        }) }
        ensures err { OnErr result (self.new ≡ self.old) }
    {
        if count > usize::MAX - self.out {
            return Err(NoMemory);
        }
        self.returned.reserve(self.out + count)?;
        let rest = self.ready.split_off(count)?;
        let doors = mem::replace(&mut self.ready, rest);
        self.out += count;
        Ok(Seq::from_vec(Vec::from(doors)))
    }

    // Takes back doors that are out.
    pub(crate) fn take_back(&mut self, doors: Seq<D>)
        requires { length doors ≤ self.old.out }
        ensures { self.new ≡ record self.old {
          returned = self.old.returned ++ doors;
          out = self.old.out - length doors;
        } }
    {
        let mut doors = doors.into_vec();
        self.out -= doors.len();
        match self.returned.append(&mut doors) {
            Ok(()) => {}
            Err(_) => unreachable!(),
        }
    }
}
