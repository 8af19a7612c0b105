ghost use Rattle.std.specs.Prelude.{◌≡◌, ◌≤◌, IsNone, None};
ghost use Rattle.waf_io.specs.Counts.{Rose};
ghost use Rattle.waf_io.specs.Files.{IsWithin};
ghost use Rattle.waf_io.specs.Names.{NamesNoFile, unopened};

use crate::{FileAnswer, Files, Got, Sink, Source, Took};
use std::alloc::Global;
use std::fs::File;
use std::io::{ErrorKind, Read, Write};
use std::rt::Files as SystemFiles;
use waf_plain::Bytes;

/// Any reader of std, as standard input. It tells nothing of its bytes.
#[derive(Drop)]
pub struct ReadSource<R: Read> {
    reader: R,
    faults: u64,
    ends: u64,
}

impl<R: Read> ReadSource<R> {
    /// A source over a reader, with counts of 0.
    pub fn new(reader: R) -> ReadSource<R>
        ensures faults { result.faults ≡ 0 }
        ensures ends { result.ends ≡ 0 }
    {
        ReadSource {
            reader,
            faults: 0,
            ends: 0,
        }
    }
}

impl<R: Read> Source for ReadSource<R> {
    ghost left = { λ s. None };

    ghost faults = { λ s. s.faults };

    ghost ends = { λ s. s.ends };

    fn read(&mut self, into: &mut [u8]) -> Got {
        match self.reader.read(into) {
            Ok(0) if !into.is_empty() => {
                self.ends = self.ends.saturating_add(1);
                Got::End
            }
            Ok(count) => Got::Bytes(count as u64),
            Err(_) => {
                self.faults = self.faults.saturating_add(1);
                Got::Failed
            }
        }
    }
}

/// Any writer of std, as standard output. It tells nothing of its bytes.
#[derive(Drop)]
pub struct WriteSink<W: Write> {
    writer: W,
    faults: u64,
}

impl<W: Write> WriteSink<W> {
    /// A sink over a writer, with a count of 0.
    pub fn new(writer: W) -> WriteSink<W>
        ensures { result.faults ≡ 0 }
    {
        WriteSink { writer, faults: 0 }
    }
}

impl<W: Write> Sink for WriteSink<W> {
    ghost held = { λ s. None };

    ghost faults = { λ s. s.faults };

    fn write(&mut self, piece: &[u8]) -> Took {
        if piece.is_empty() {
            return Took::Bytes(0);
        }
        match self.writer.write(piece) {
            Ok(count) if count > 0 => Took::Bytes(count as u64),
            _ => {
                self.faults = self.faults.saturating_add(1);
                Took::Failed
            }
        }
    }
}

/// The files of the system. They tell nothing of their content.
///
/// | Name | Answer |
/// |---|---|
/// | of no file, also where a directory on the way is missing, or is a file | `Absent` |
/// | that no file can have: no UTF-8, a byte 0, or longer than the system takes | `Absent` |
/// | of a directory | `Failed` |
/// | of a file that may not be read | `Failed` |
#[derive(Drop)]
pub struct RealFiles<'a, R: SystemFiles> {
    rt: &'a R,
    faults: u64,
}

impl<'a, R: SystemFiles> RealFiles<'a, R> {
    /// The files of that runtime, with a count of 0.
    pub fn new(rt: &'a R) -> RealFiles<'a, R>
        ensures { result.faults ≡ 0 }
    {
        RealFiles { rt, faults: 0 }
    }
}

impl<'a, R: SystemFiles> Files for RealFiles<'a, R> {
    ghost content = { λ s. None };

    ghost faults = { λ s. s.faults };

    fn read_file(&mut self, alloc: Global, name: &[u8], most: u64) -> FileAnswer
        ensures within { IsWithin result most }
        ensures later { self.old.faults ≤ self.new.faults }
        ensures cause { result ≡ FileAnswer.Failed → Rose self.old.faults self.new.faults }
        ensures nameless { NamesNoFile name.now → result ≡ FileAnswer.Absent }
    {
        let Some(path) = path_of(name) else {
            return FileAnswer::Absent;
        };
        let answer = match std::fs::open(self.rt, path) {
            Ok(mut file) => read_all(alloc, &mut file, most),
            Err(error) => unopened(error.kind()),
        };
        if let FileAnswer::Failed = &answer {
            self.faults = self.faults.saturating_add(1);
        }
        answer
    }
}

// The path of that name, where a file may have it.
fn path_of(name: &[u8]) -> Option<&str>
    ensures { NamesNoFile name.now → IsNone result }
{
    if name.contains(&0) {
        return None;
    }
    match std::str::from_utf8(name) {
        Ok(path) => Some(path),
        Err(_) => None,
    }
}

// The answer for a file that could not be opened.
fn unopened(kind: ErrorKind) -> FileAnswer
    ensures { result ≡ unopened kind }
{
    match kind {
        ErrorKind::NotFound
        | ErrorKind::NotADirectory
        | ErrorKind::InvalidFilename
        | ErrorKind::InvalidInput => FileAnswer::Absent,
        ErrorKind::OutOfMemory => FileAnswer::NoMemory,
        _ => FileAnswer::Failed,
    }
}

// All that a reader gives up to its end, where it is at most so many bytes.
fn read_all<R: Read>(alloc: Global, reader: &mut R, most: u64) -> FileAnswer
    ensures { IsWithin result most }
{
    let mut content = Bytes::new(alloc);
    let mut buffer = [0u8; 4096];
    while content.len() as u64 <= most {
        match reader.read(&mut buffer) {
            Ok(0) => return FileAnswer::Content(content),
            Ok(count) => {
                let Ok(()) = content.append(&buffer[..count]) else {
                    return FileAnswer::NoMemory;
                };
            }
            Err(_) => return FileAnswer::Failed,
        }
    }
    FileAnswer::TooLong
}
