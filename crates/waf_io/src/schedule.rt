ghost use Rattle.std.specs.Prelude.{◌≡◌, ◌≤◌, nat_le};
ghost use Rattle.waf_io.specs.Schedule.{after_call, fails_at, fails_next};

use std::marker::Model;
use waf_plain::Seq;

// Which calls fail: those that a list names, counted from 0.
#[derive(Drop)]
pub(crate) struct Schedule {
    calls: u64,
    failing: Seq<u64>,
    faults: u64,
}

impl Model for Schedule {
    ghost use Rattle.waf_io.specs.Schedule.{Failing};

    ghost Value = { Failing };

    ghost view = { λ s. record { calls = s.calls; failing = s.failing; faults = s.faults } };
}

impl Schedule {
    pub(crate) fn new(failing: Seq<u64>) -> Schedule
        ensures { result ≡ fails_at failing }
    {
        Schedule {
            calls: 0,
            failing,
            faults: 0,
        }
    }

    // Counts one call more, and whether it is to fail.
    pub(crate) fn fails_next(&mut self) -> bool
        ensures fails { result ≡ fails_next self.old }
        ensures counted { self.new ≡ after_call self.old }
        ensures later { self.old.faults ≤ self.new.faults }
    {
        let call = self.calls;
        self.calls = call.saturating_add(1);
        let fails = self.failing.as_slice().contains(&call);
        if fails {
            self.faults = self.faults.saturating_add(1);
        }
        fails
    }
    // Whether a call has failed.
    pub(crate) fn has_failed(&self) -> bool
        ensures { result ≡ nat_le 1 self.now.faults }
    {
        self.faults >= 1
    }
}
