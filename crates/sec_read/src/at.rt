ghost use Rattle.std.specs.Prelude.{◌≡◌, ◌<◌, ◌^◌, length, Result};
ghost use Rattle.sec_parts.specs.declared.faults.Bad.{Bad};
ghost use Rattle.sec_parts.specs.Results.{Gives};
ghost use Rattle.sec_text.specs.Lines.{lines_of};
ghost use Rattle.sec_text.specs.Words.{words};
ghost use Rattle.sec_read.specs.Faults.{lines_at, placed, words_at};
ghost use Rattle.sec_read.specs.Results.{Answers, IsFault, IsUnreadAt};

use crate::faults::{Cause, Found, Halt, Spot};
use sec_parts::Refusal;
use sec_text::{Line, TextFault, WordFault};
use std::alloc::Global;
use waf_plain::{Bytes, Seq};

// A line of a file.
#[derive(Clone, Copy)]
pub struct At<'a> {
    pub file: &'a [u8],
    pub line: u32,
}

impl<'a> At<'a> {
    // A fault in this line.
    pub fn fault(self, alloc: Global, cause: Cause, word: &[u8]) -> Halt
        ensures { IsFault result self.entry.file.now self.entry.line cause word.now }
    {
        match (Bytes::copy(alloc, self.file), Bytes::copy(alloc, word)) {
            (Ok(file), Ok(word)) => Halt::Fault(Found {
                file,
                line: self.line,
                cause,
                word,
            }),
            _ => Halt::NoMemory,
        }
    }

    // A read that failed, of the file that a word in this line names.
    pub fn unread(self, alloc: Global, word: &[u8]) -> Halt
        ensures { IsUnreadAt result self.entry.file.now self.entry.line word.now }
    {
        match (Bytes::copy(alloc, self.file), Bytes::copy(alloc, word)) {
            (Ok(file), Ok(word)) => Halt::Unread(Spot {
                file,
                line: self.line,
                word,
            }),
            _ => Halt::NoMemory,
        }
    }

    // What was read of a part of this line, its fault with the place.
    pub fn placed<T>(self, alloc: Global, read: Result<T, Refusal>) -> Result<T, Halt>
        ensures { (given : Result T Bad) → Gives (λ x. x) read given
            → Answers (λ x. x) result (placed self.entry.file.now self.entry.line given) }
    {
        match read {
            Ok(value) => Ok(value),
            Err(Refusal::NoMemory) => Err(Halt::NoMemory),
            Err(Refusal::Bad(bad)) => {
                Err(self.fault(alloc, Cause::of(bad.flaw), bad.word.as_slice()))
            }
        }
    }
}

// The words of a line, in its file.
pub fn words_of_line(alloc: Global, file: &[u8], line: &Line) -> Result<Seq<Bytes>, Halt>
    ensures { Answers (λ words. words) result (words_at file.now line.now.number (words line.now.text)) }
{
    let at = At {
        file,
        line: line.number,
    };
    match sec_text::words_of(alloc, line) {
        Ok(words) => Ok(words),
        Err(WordFault::OpenQuote) => Err(at.fault(alloc, Cause::OpenQuote, b"")),
        Err(WordFault::BadWord) => Err(at.fault(alloc, Cause::BadWord, b"")),
        Err(WordFault::NoMemory) => Err(Halt::NoMemory),
    }
}

// The logical lines of a file's text.
pub fn lines_of_text(alloc: Global, file: &[u8], text: &[u8]) -> Result<Seq<Line>, Halt>
    requires { length text.now < 2 ^ 31 }
    ensures { Answers (λ lines. lines) result (lines_at file.now (lines_of text.now)) }
{
    match sec_text::lines_of(alloc, text) {
        Ok(lines) => Ok(lines),
        Err(TextFault::NotText { line }) => {
            Err(At { file, line }.fault(alloc, Cause::NotText, b""))
        }
        Err(TextFault::TooLong { line }) => {
            Err(At { file, line }.fault(alloc, Cause::TooLong, b""))
        }
        Err(TextFault::NoMemory) => Err(Halt::NoMemory),
    }
}
