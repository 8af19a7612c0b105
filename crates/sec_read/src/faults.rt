ghost use Rattle.std.specs.Prelude.{◌≡◌};
ghost use Rattle.sec_parts.specs.Results.{IsBad};
ghost use Rattle.sec_parts.specs.declared.Flaw.TheVariants as flaws;
ghost use Rattle.sec_read.specs.declared.faults.Halt.TheVariants as halts;
ghost use Rattle.sec_read.specs.Faults.{cause_of, kind_name, kind_of};
ghost use Rattle.sec_read.specs.Listing.{IsToldFault};

use sec_parts::{Bad, Flaw, Refusal};
use std::alloc::Global;
use waf_plain::{Bytes, NoMemory};

/// What stopped the reading.
#[derive(Clone, Copy, Debug, PartialEq, Eq)]
pub enum Kind {
    UnknownDirective,
    /// The name of something that this agent leaves out on purpose, or a name of files with a
    /// wildcard.
    RefusedByName,
    /// A word outside its form, or a wrong number of words.
    BadWord,
    NoId,
    /// The identifier of a rule before it.
    DoubleId,
    /// A link with `chain` that no other link follows.
    OpenChain,
    OpenQuote,
    /// The text is not UTF-8 (RFC 3629).
    NotText,
    NoFile,
    /// A file that stands more than eight files deep.
    IncludeDepth,
    /// A text, a logical line, the rules or the links of a rule are too many or too long.
    TooLong,
    /// A file could not be read.
    ReadFault,
    NoMemory,
}

impl Kind {
    /// The word for it in the program's line on a fault.
    pub fn name(self) -> &'static [u8]
        ensures { result.now ≡ kind_name self }
    {
        match self {
            Kind::UnknownDirective => b"UnknownDirective",
            Kind::RefusedByName => b"RefusedByName",
            Kind::BadWord => b"BadWord",
            Kind::NoId => b"NoId",
            Kind::DoubleId => b"DoubleId",
            Kind::OpenChain => b"OpenChain",
            Kind::OpenQuote => b"OpenQuote",
            Kind::NotText => b"NotText",
            Kind::NoFile => b"NoFile",
            Kind::IncludeDepth => b"IncludeDepth",
            Kind::TooLong => b"TooLong",
            Kind::ReadFault => b"ReadFault",
            Kind::NoMemory => b"NoMemory",
        }
    }
}

/// What stopped the reading, and where: the file by the name under which it was opened, the line,
/// counted from 1, and the word. A file that a directive names is at fault in that directive's line,
/// with the word as written; one that was handed in has its own name, line 0 and no word. For want of
/// memory there is no place.
#[derive(Debug, PartialEq, Drop)]
pub struct Fault {
    pub file: Bytes,
    pub line: u32,
    pub kind: Kind,
    pub word: Bytes,
}

// What can be wrong in a text: the kinds but for those of reading and memory.
#[derive(Clone, Copy)]
pub enum Cause {
    UnknownDirective,
    RefusedByName,
    BadWord,
    NoId,
    DoubleId,
    OpenChain,
    OpenQuote,
    NotText,
    NoFile,
    IncludeDepth,
    TooLong,
}

impl Cause {
    pub fn of(flaw: Flaw) -> Cause
        ensures { result ≡ cause_of flaw }
    {
        match flaw {
            Flaw::RefusedByName => Cause::RefusedByName,
            Flaw::BadWord => Cause::BadWord,
            Flaw::OpenQuote => Cause::OpenQuote,
        }
    }

    fn kind(self) -> Kind
        ensures { result ≡ kind_of self }
    {
        match self {
            Cause::UnknownDirective => Kind::UnknownDirective,
            Cause::RefusedByName => Kind::RefusedByName,
            Cause::BadWord => Kind::BadWord,
            Cause::NoId => Kind::NoId,
            Cause::DoubleId => Kind::DoubleId,
            Cause::OpenChain => Kind::OpenChain,
            Cause::OpenQuote => Kind::OpenQuote,
            Cause::NotText => Kind::NotText,
            Cause::NoFile => Kind::NoFile,
            Cause::IncludeDepth => Kind::IncludeDepth,
            Cause::TooLong => Kind::TooLong,
        }
    }
}

// What is wrong in a text, and where.
#[derive(Drop)]
pub struct Found {
    pub file: Bytes,
    pub line: u32,
    pub cause: Cause,
    pub word: Bytes,
}

// The file and line of a directive, and a word of it.
#[derive(Drop)]
pub struct Spot {
    pub file: Bytes,
    pub line: u32,
    pub word: Bytes,
}

// A word outside its form.
pub fn bad_word(alloc: Global, word: &[u8]) -> Refusal
    ensures { IsBad result flaws.BadWord word.now }
{
    match Bytes::copy(alloc, word) {
        Ok(word) => Refusal::Bad(Bad {
            flaw: Flaw::BadWord,
            word,
        }),
        Err(_) => Refusal::NoMemory,
    }
}

// Why the reading stopped.
#[derive(Drop)]
pub enum Halt {
    NoMemory,
    // A read failed, of the file that this word names.
    Unread(Spot),
    Fault(Found),
}

impl From<NoMemory> for Halt {
    ghost from_gives = { λ _ e. e ≡ halts.NoMemory };

    fn from(_: NoMemory) -> Halt {
        Halt::NoMemory
    }
}

impl Halt {
    // The fault that a caller is told.
    pub fn told(self, alloc: Global) -> Fault
        ensures { IsToldFault result self }
    {
        match self {
            Halt::Fault(found) => Fault {
                file: found.file,
                line: found.line,
                kind: found.cause.kind(),
                word: found.word,
            },
            Halt::Unread(spot) => Fault {
                file: spot.file,
                line: spot.line,
                kind: Kind::ReadFault,
                word: spot.word,
            },
            Halt::NoMemory => Fault {
                file: Bytes::new(alloc),
                line: 0,
                kind: Kind::NoMemory,
                word: Bytes::new(alloc),
            },
        }
    }
}
