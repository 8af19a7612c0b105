ghost use Rattle.std.specs.Prelude.{Some};

use case_text::{items, number};
use std::alloc::Global;
use waf_io::{Got, MemFile, MemFiles, MemSink, MemSource, Source};
use waf_plain::{Bytes, NoMemory, Seq};

// How many bytes of an output are kept.
const ROOM: usize = 1_048_576;

/// The numbers behind this letter, with commas between all.
pub fn numbers(alloc: Global, word: &[u8], letter: u8) -> Result<Seq<u64>, NoMemory> {
    let mut calls = Seq::new(alloc);
    for part in items(alloc, word, b',')?.as_slice() {
        match part.as_slice() {
            [first, digits @ ..] if *first == letter => {
                if let Some(call) = number(digits) {
                    calls.push(call)?;
                }
            }
            _ => {}
        }
    }
    Ok(calls)
}

/// Files of these names and contents, by turns, with a byte 0 between them.
pub fn mem_files(alloc: Global, word: &[u8], failing: Seq<u64>) -> Result<MemFiles, NoMemory> {
    let mut files = Seq::new(alloc);
    let parts = items(alloc, word, 0)?;
    for pair in parts.as_slice().chunks(2) {
        if let [name, content] = pair {
            files.push(file(alloc, name.as_slice(), content.as_slice())?)?;
        }
    }
    Ok(MemFiles::new(files, failing))
}

fn file(alloc: Global, name: &[u8], content: &[u8]) -> Result<MemFile, NoMemory> {
    let name = Bytes::copy(alloc, name)?;
    let content = Bytes::copy(alloc, content)?;
    Ok(MemFile { name, content })
}

/// One file.
pub fn one_file(alloc: Global, name: &[u8], content: &[u8]) -> Result<MemFiles, NoMemory> {
    let mut files = Seq::new(alloc);
    files.push(file(alloc, name, content)?)?;
    Ok(MemFiles::new(files, Seq::new(alloc)))
}

/// An output with room enough.
pub fn output(alloc: Global, failing: Seq<u64>) -> Result<MemSink, NoMemory> {
    MemSink::new(alloc, ROOM, failing)
}

/// Bytes that come in pieces of a size.
#[derive(Drop)]
pub struct Pieces {
    source: MemSource,
    size: usize,
}

impl Pieces {
    /// These bytes, in pieces of this size, but at least of one byte.
    pub fn new(
        alloc: Global,
        bytes: &[u8],
        size: usize,
        failing: Seq<u64>,
    ) -> Result<Pieces, NoMemory> {
        Ok(Pieces {
            source: MemSource::new(Bytes::copy(alloc, bytes)?, failing),
            size,
        })
    }
}

impl Source for Pieces {
    ghost left = { λ s. Some s.source.left.bytes };

    ghost faults = { λ s. s.source.schedule.faults };

    ghost ends = { λ s. s.source.left.ends };

    fn read(&mut self, into: &mut [u8]) -> Got {
        let room = into.len().min(self.size.max(1));
        self.source.read(&mut into[..room])
    }
}
