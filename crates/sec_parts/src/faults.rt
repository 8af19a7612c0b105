ghost use Rattle.std.specs.Prelude.{◌≡◌};
ghost use Rattle.sec_parts.specs.Results.{IsBad};
ghost use Rattle.sec_parts.specs.declared.faults.Flaw.TheVariants as flaws;
ghost use Rattle.sec_parts.specs.declared.faults.Refusal.TheVariants as refusals;

use std::alloc::Global;
use waf_plain::{Bytes, NoMemory};

/// What can be wrong in a part of a directive.
#[derive(Clone, Copy, Debug, PartialEq, Eq)]
pub enum Flaw {
    /// The name of something that this agent leaves out on purpose.
    RefusedByName,
    /// A word outside its form.
    BadWord,
    /// A single quote that does not close.
    OpenQuote,
}

/// What is wrong, and the word in which it is.
#[derive(Debug, PartialEq, Drop)]
pub struct Bad {
    pub flaw: Flaw,
    pub word: Bytes,
}

/// Why a part of a directive was not read: its first fault from the left, or want of memory.
#[derive(Debug, PartialEq, Drop)]
pub enum Refusal {
    NoMemory,
    Bad(Bad),
}

impl From<NoMemory> for Refusal {
    ghost from_gives = { λ _ e. e ≡ refusals.NoMemory };

    fn from(_: NoMemory) -> Refusal {
        Refusal::NoMemory
    }
}

pub(crate) fn with_word(alloc: Global, flaw: Flaw, word: &[u8]) -> Refusal
    ensures { IsBad result flaw word.now }
{
    match Bytes::copy(alloc, word) {
        Ok(word) => Refusal::Bad(Bad { flaw, word }),
        Err(_) => Refusal::NoMemory,
    }
}

pub(crate) fn bad_word(alloc: Global, word: &[u8]) -> Refusal
    ensures { IsBad result flaws.BadWord word.now }
{
    with_word(alloc, Flaw::BadWord, word)
}

pub(crate) fn refused_name(alloc: Global, word: &[u8]) -> Refusal
    ensures { IsBad result flaws.RefusedByName word.now }
{
    with_word(alloc, Flaw::RefusedByName, word)
}

pub(crate) fn open_quote(alloc: Global, word: &[u8]) -> Refusal
    ensures { IsBad result flaws.OpenQuote word.now }
{
    with_word(alloc, Flaw::OpenQuote, word)
}
