ghost use Rattle.std.specs.Prelude.{◌≡◌};
ghost use Rattle.sec_text.specs.declared.faults.TextFault.TheVariants as text_faults;
ghost use Rattle.sec_text.specs.declared.faults.WordFault.TheVariants as word_faults;

use waf_plain::NoMemory;

/// Why a text has no logical lines. `line` is a number of a physical line, counted from 1.
#[derive(Clone, Copy, Debug, PartialEq, Eq)]
pub enum TextFault {
    /// The text is not UTF-8 (RFC 3629): the first byte that begins no character is in this line.
    NotText { line: u32 },
    /// The first logical line of more than 65536 bytes begins in this line.
    TooLong { line: u32 },
    NoMemory,
}

impl From<NoMemory> for TextFault {
    ghost from_gives = { λ _ e. e ≡ text_faults.NoMemory };

    fn from(_: NoMemory) -> TextFault {
        TextFault::NoMemory
    }
}

/// Why a line has no words: its first fault from the left.
#[derive(Clone, Copy, Debug, PartialEq, Eq)]
pub enum WordFault {
    /// A word in quotes does not end.
    OpenQuote,
    /// Something but a blank stands behind a closing quote, or a plain word has a quote in it or a
    /// `\` at its end.
    BadWord,
    NoMemory,
}

impl From<NoMemory> for WordFault {
    ghost from_gives = { λ _ e. e ≡ word_faults.NoMemory };

    fn from(_: NoMemory) -> WordFault {
        WordFault::NoMemory
    }
}
