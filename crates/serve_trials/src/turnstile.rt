use std::sync::Wait;
use std::sync::atomic::{AtomicBool, AtomicU64, Ordering};
use waf_io::{Gate, Point};

// How often the held worker looks at the count before it goes on.
const LOOKS: u64 = 500_000_000;

// Holds one worker where it is about to judge, until another has written twice.
#[derive(Drop)]
pub(crate) struct Turnstile {
    held: u32,
    written: AtomicU64,
    is_used_up: AtomicBool,
}

impl Turnstile {
    pub(crate) fn new(held: u32) -> Turnstile {
        Turnstile {
            held,
            written: AtomicU64::new(0),
            is_used_up: AtomicBool::new(false),
        }
    }

    // Whether the held worker went on though no other had written twice.
    pub(crate) fn is_used_up(&self) -> bool {
        self.is_used_up.load(Ordering::SeqCst)
    }

    fn hold(&self) {
        for _ in 0..LOOKS {
            if self.written.load(Ordering::SeqCst) >= 2 {
                return;
            }
        }
        self.is_used_up.store(true, Ordering::SeqCst);
    }
}

impl Gate for Turnstile {
    fn pass<W: Wait>(&self, _rt: &W, point: Point) {
        match point {
            Point::Judge(worker) => {
                if worker == self.held {
                    self.hold()
                }
            }
            Point::Written(worker) => {
                if worker != self.held {
                    self.written.fetch_add(1, Ordering::SeqCst);
                }
            }
        }
    }
}
