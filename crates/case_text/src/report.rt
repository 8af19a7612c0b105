ghost use Rattle.std.specs.Prelude.{◌≡◌, ◌++◌, codes, true, OnOk};

use crate::print::print_words;
use crate::word::Word;
use itoa::Buffer;
use std::alloc::Global;
use waf_plain::{Bytes, NoMemory};

/// A line of a case file. Its number is counted from 1.
#[derive(Clone, Copy)]
pub struct At<'a> {
    pub name: &'a [u8],
    pub number: u64,
}

/// What is told of a case file: a text, and whether something is not as it is wanted.
#[derive(Drop)]
pub struct Report {
    pub text: Bytes,
    pub differs: bool,
}

impl Report {
    /// Nothing is told yet.
    pub fn new(alloc: Global) -> Report {
        Report {
            text: Bytes::new(alloc),
            differs: false,
        }
    }

    /// Tells a line of what is not as it is wanted.
    pub fn tell(&mut self, line: &[u8]) -> Result<(), NoMemory>
        ensures told { OnOk result (self.new.text ≡ self.old.text ++ line.now ++ codes "\n") }
        ensures noted { self.new.differs ≡ true }
    {
        self.differs = true;
        self.text.append(line)?;
        self.text.append(b"\n")
    }

    /// Tells a line where the words that came are not those that are wanted, and nothing where they are.
    pub fn settle(
        &mut self,
        alloc: Global,
        at: At<'_>,
        came: &[Word],
        wanted: &[Word],
    ) -> Result<(), NoMemory>
        ensures kept { self.old.differs ≡ true → self.new.differs ≡ true }
    {
        if came == wanted {
            return Ok(());
        }
        let line = difference(alloc, at, came, wanted)?;
        self.tell(line.as_slice())
    }
}

// The line that tells of words that are not those that are wanted.
fn difference(
    alloc: Global,
    at: At<'_>,
    came: &[Word],
    wanted: &[Word],
) -> Result<Bytes, NoMemory> {
    let mut line = place_text(alloc, at)?;
    line.append(b"came")?;
    print_words(came, &mut line)?;
    line.append(b" wanted")?;
    print_words(wanted, &mut line)?;
    Ok(line)
}

/// `FILE:LINE: `, as a line that tells something begins.
pub fn place_text(alloc: Global, at: At<'_>) -> Result<Bytes, NoMemory> {
    let mut buffer = Buffer::new();
    let mut line = Bytes::copy(alloc, at.name)?;
    line.append(b":")?;
    line.append(buffer.format(at.number).as_bytes())?;
    line.append(b": ")?;
    Ok(line)
}
