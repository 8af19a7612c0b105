ghost use Rattle.std.specs.Prelude.{◌≡◌, Some};

use crate::Clock;
use std::marker::Model;

/// A clock that stands still.
#[derive(Debug, Drop)]
pub struct MemClock {
    moment: u64,
}

impl Model for MemClock {
    ghost use Rattle.std.specs.Prelude.{ℕ};

    ghost Value = { ℕ };

    ghost view = { λ s. s.moment };
}

impl MemClock {
    /// A clock that shows this moment.
    pub fn new(moment: u64) -> MemClock
        ensures { result ≡ moment }
    {
        MemClock { moment }
    }
}

impl Clock for MemClock {
    ghost told = { λ s. Some s };

    fn now(&self) -> u64 {
        self.moment
    }
}
