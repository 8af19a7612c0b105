ghost use Rattle.std.specs.Prelude.{◌≡◌, ◌≤◌, ◌+◌, List, length, Option, ℕ};
ghost use Rattle.std.specs.List.{All};
ghost use Rattle.waf_io.specs.Counts.{Rose};
ghost use Rattle.waf_io.specs.Doors.{after_faults, AreOpened, HasEnded, IsNew, KeepsAll};

use crate::Door;
use std::alloc::Global;
use waf_plain::Seq;

/// What an opening of doors gave.
#[derive(Debug, Drop)]
pub enum Opened<D> {
    /// As many doors as were asked for.
    Doors(Seq<D>),
    /// The opening failed, and no door is open.
    Failed,
    NoMemory,
}

/// What opens doors. A door is out from its opening until it is taken back.
pub trait Doors {
    type D: Door;

    /// How many doors are out.
    ghost out: { Self → ℕ };

    /// The doors that came back, in that order, where they are told.
    ghost returned: { Self → Option (List Self.D) };

    /// How often an opening, a shutting or a door that came back had failed. The count stands still at the
    /// end of u64.
    ghost faults: { Self → ℕ };

    /// Opens so many doors at an address.
    fn open_doors(&mut self, alloc: Global, address: &[u8], count: u32) -> Opened<Self::D>
        ensures opened { AreOpened (IsNew Self.D.served Self.D.is_out Self.D.faults Self.D.closings) result count
            (out self.old) (out self.new) }
        ensures returned { returned self.new ≡ returned self.old }
        ensures later { faults self.old ≤ faults self.new }
        ensures cause { result ≡ Opened.Failed → Rose (faults self.old) (faults self.new) };

    /// Asks the doors that are out to close.
    fn shut(&mut self)
        ensures out { out self.new ≡ out self.old }
        ensures returned { returned self.new ≡ returned self.old }
        ensures later { faults self.old ≤ faults self.new };

    /// Takes back doors that have closed or failed.
    fn take_back(&mut self, doors: Seq<Self::D>)
        requires within { length doors ≤ out self.old }
        requires ended { All (HasEnded Self.D.faults Self.D.closings) doors }
        ensures out { out self.new + length doors ≡ out self.old }
        ensures returned { KeepsAll (returned self.old) doors (returned self.new) }
        ensures faults { faults self.new ≡ after_faults Self.D.faults doors (faults self.old) };
}
