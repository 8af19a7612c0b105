ghost use Rattle.std.specs.Prelude.{◌+◌, None};

use crate::memory::{mem_files, numbers};
use case_text::items;
use std::alloc::Global;
use waf_io::{FileAnswer, Files, MemFiles};
use waf_plain::{Bytes, NoMemory, Seq};

// Between the files at first and those that replace them.
const EXCHANGE: u8 = 1;

/// Files in memory, which others replace after so many readings.
#[derive(Drop)]
pub struct Exchanged {
    first: MemFiles,
    later: MemFiles,
    readings: u64,
}

impl Exchanged {
    /// Files with those that replace them behind a byte 1; the number behind `x` says after how many readings.
    pub fn new(alloc: Global, word: &[u8], calls: &[u8]) -> Result<Exchanged, NoMemory> {
        let parts = items(alloc, word, EXCHANGE)?;
        let failing = numbers(alloc, calls, b'f')?;
        let readings = numbers(alloc, calls, b'x')?;
        Ok(Exchanged {
            first: mem_files(alloc, part(parts.as_slice(), 0), failing)?,
            later: mem_files(alloc, part(parts.as_slice(), 1), Seq::new(alloc))?,
            readings: first_of(readings.as_slice()),
        })
    }
}

fn part(parts: &[Bytes], place: usize) -> &[u8] {
    match parts.get(place) {
        Some(part) => part.as_slice(),
        None => &[],
    }
}

// Without a number the first files stay.
fn first_of(numbers: &[u64]) -> u64 {
    match numbers {
        [number, ..] => *number,
        [] => u64::MAX,
    }
}

impl Files for Exchanged {
    ghost content = { λ s. None };

    ghost faults = { λ s. s.first.schedule.faults + s.later.schedule.faults };

    fn read_file(&mut self, alloc: Global, name: &[u8], most: u64) -> FileAnswer {
        if self.readings == 0 {
            return self.later.read_file(alloc, name, most);
        }
        self.readings -= 1;
        self.first.read_file(alloc, name, most)
    }
}
