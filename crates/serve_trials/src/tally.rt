use std::io::{self, Read};
use std::sync::Wait;
use std::sync::atomic::{AtomicU64, Ordering};
use waf_io::{Gate, Point};

// How often the orders look at the count before they come all the same.
const LOOKS: u64 = 500_000_000;

// Counts the writes that the peers have taken whole.
#[derive(Drop)]
pub(crate) struct Tally {
    written: AtomicU64,
}

impl Tally {
    pub(crate) fn new() -> Tally {
        Tally {
            written: AtomicU64::new(0),
        }
    }

    fn wait_for(&self, writes: u64) {
        for _ in 0..LOOKS {
            if self.written.load(Ordering::SeqCst) >= writes {
                return;
            }
        }
    }
}

impl Gate for Tally {
    fn pass<W: Wait>(&self, _rt: &W, point: Point) {
        if let Point::Written(_) = point {
            self.written.fetch_add(1, Ordering::SeqCst);
        }
    }
}

// Orders that come once so many writes were counted.
#[derive(Drop)]
pub(crate) struct Orders<'a> {
    tally: &'a Tally,
    writes: u64,
    left: &'a [u8],
}

impl<'a> Orders<'a> {
    pub(crate) fn after(tally: &'a Tally, writes: u64, orders: &'a [u8]) -> Orders<'a> {
        Orders {
            tally,
            writes,
            left: orders,
        }
    }
}

impl Read for Orders<'_> {
    fn read(&mut self, into: &mut [u8]) -> io::Result<usize> {
        self.tally.wait_for(self.writes);
        let count = self.left.len().min(into.len());
        let (now, later) = self.left.split_at(count);
        into[..count].copy_from_slice(now);
        self.left = later;
        Ok(count)
    }
}
