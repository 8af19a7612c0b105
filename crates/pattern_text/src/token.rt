ghost use Rattle.std.specs.Prelude.{◌≡◌, ◌<◌, ◌++◌, OnOk, codes};
ghost use Rattle.pattern_text.specs.Texts.{byte_text, hex_letter};
ghost use Rattle.pattern_text.specs.Words.{set_text, class_text};
ghost use Rattle.pattern_text.specs.Written.{text_of};

use crate::characters::{CAPITAL_A, ZERO};
use crate::place::{Place, Set};
use waf_plain::{Bytes, NoMemory};

/// How a token is worded.
#[derive(Clone, Copy, Debug, PartialEq, Eq)]
pub enum Wording {
    /// The bytes of the pattern stay as they are.
    Kept,
    /// One byte.
    Byte(u8),
    /// The bytes from one to the other, in a class.
    Range(u8, u8),
    /// A set, in a class.
    Members(Set),
    /// A set, outside of classes.
    Class(Set),
    /// `\R`.
    LineEnd,
}

/// A token at the front of what is left of a pattern.
#[derive(Clone, Copy, Debug, PartialEq, Eq)]
pub struct Token {
    pub wording: Wording,
    /// How many bytes of the pattern it is for.
    pub takes: usize,
    /// Where the next token stands.
    pub next: Place,
}

impl Token {
    pub(crate) fn kept(takes: usize, next: Place) -> Token
        ensures { result ≡ record { wording = Wording.Kept; takes = takes; next = next } }
    {
        Token {
            wording: Wording::Kept,
            takes,
            next,
        }
    }

    /// Adds the wording of this token. `taken`: the bytes of the pattern that it is for.
    pub(crate) fn write(&self, taken: &[u8], out: &mut Bytes) -> Result<(), NoMemory>
        ensures { OnOk result (out.new ≡ out.old ++ text_of self.now.wording taken.now) }
    {
        match self.wording {
            Wording::Kept => out.append(taken),
            Wording::Byte(byte) => write_byte(byte, out),
            Wording::Range(low, high) => write_range(low, high, out),
            Wording::Members(set) => out.append(members(set)),
            Wording::Class(set) => out.append(class(set)),
            Wording::LineEnd => out.append(b"(?:\\x0D\\x0A|[\\x0A-\\x0D\\x85])"),
        }
    }
}

fn members(set: Set) -> &'static [u8]
    ensures { result.now ≡ set_text set }
{
    match set {
        Set::Blanks => b"\\x09\\x20",
        Set::VerticalSpaces => b"\\x0A-\\x0D\\x85",
    }
}

fn class(set: Set) -> &'static [u8]
    ensures { result.now ≡ class_text set }
{
    match set {
        Set::Blanks => b"[\\x09\\x20]",
        Set::VerticalSpaces => b"[\\x0A-\\x0D\\x85]",
    }
}

fn write_range(low: u8, high: u8, out: &mut Bytes) -> Result<(), NoMemory>
    ensures { OnOk result (out.new ≡ out.old ++ (byte_text low ++ codes "-" ++ byte_text high)) }
{
    write_byte(low, out)?;
    out.push(b'-')?;
    write_byte(high, out)
}

#[tactic(auto, unfolding(crate::specs::Texts::byte_text))]
fn write_byte(byte: u8, out: &mut Bytes) -> Result<(), NoMemory>
    ensures { OnOk result (out.new ≡ out.old ++ byte_text byte) }
{
    if byte.is_ascii_alphanumeric() {
        return out.push(byte);
    }
    out.append(b"\\x")?;
    out.push(hex_letter(byte / 16))?;
    out.push(hex_letter(byte % 16))
}

fn hex_letter(digit: u8) -> u8
    requires { digit < 16 }
    ensures { result ≡ hex_letter digit }
{
    if digit < 10 {
        ZERO + digit
    } else {
        CAPITAL_A + (digit - 10)
    }
}
