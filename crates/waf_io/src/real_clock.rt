ghost use Rattle.std.specs.Prelude.{None};

use crate::Clock;
use std::sync::atomic::{AtomicU64, Ordering};
use std::time::Clock as SystemClock;

/// The clock of the system that never goes back. Where the system can't read it, it shows the moment that it
/// showed last. It tells no moment.
#[derive(Drop)]
pub struct RealClock<'a, R: SystemClock> {
    rt: &'a R,
    last: AtomicU64,
}

impl<'a, R: SystemClock> RealClock<'a, R> {
    /// The clock of that runtime.
    pub fn new(rt: &'a R) -> RealClock<'a, R> {
        RealClock {
            rt,
            last: AtomicU64::new(0),
        }
    }
}

impl<'a, R: SystemClock> Clock for RealClock<'a, R> {
    ghost told = { λ s. None };

    fn now(&self) -> u64 {
        match self.rt.monotonic() {
            Ok(time) => {
                let moment = u64::try_from(time.as_millis()).unwrap_or(u64::MAX);
                self.last.store(moment, Ordering::SeqCst);
                moment
            }
            Err(_) => self.last.load(Ordering::SeqCst),
        }
    }
}
