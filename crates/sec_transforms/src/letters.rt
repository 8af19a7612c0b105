//! Base64, read leniently: its letters, in groups of four.
ghost use Rattle.std.specs.Prelude.{◌≡◌, ◌<◌, ◌^◌, ◌≤◌, length, take, filter, not, IfOk};
ghost use Rattle.std.specs.List.{take_while};
ghost use Rattle.sec_decoders.specs.Pieces.{pieces};
ghost use Rattle.sec_decoders.specs.declared.pieces.TheConstants.{LIMIT};
ghost use Rattle.sec_transforms.specs.Encodings.{first_byte, second_byte, third_byte, letters_of, sextet, is_letter, group, is_line_end};

use crate::characters::{CAPITAL_Z, SLASH, SMALL_Z};
use arrayvec::ArrayVec;
use sec_decoders::characters::{CAPITAL_A, CARRIAGE_RETURN, LINE_FEED, NINE, PLUS, SMALL_A, ZERO};
use sec_decoders::{Decoder, Piece, decode};
use std::alloc::Global;
use waf_plain::{Bytes, NoMemory};

/// The sextet of `a` in base64: so many capital letters stand before it.
pub const SMALL_LETTERS: u8 = 26;
/// The sextet of `0` in base64: so many letters stand before it.
pub const DIGITS: u8 = 52;
/// The sextet of `+` in base64.
pub const PLUS_SEXTET: u8 = 62;
/// The sextet of `/` in base64.
pub const SLASH_SEXTET: u8 = 63;

/// `base64Decode`: line ends are dropped, and the text is read up to the first byte that is no
/// letter of the alphabet.
pub(crate) fn base64_decode(alloc: Global, value: &[u8]) -> Result<Bytes, NoMemory>
    ensures { IfOk result (λ bytes. bytes ≡ take LIMIT (pieces group 0 (letters_of value.now))) }
{
    let letters = letters_of(alloc, value)?;
    decode(alloc, &Groups, letters.as_slice())
}

#[tactic(auto, using(crate::proofs::Whiles::taken_while))]
fn letters_of(alloc: Global, value: &[u8]) -> Result<Bytes, NoMemory>
    ensures { IfOk result (λ bytes. bytes ≡ letters_of value.now) }
{
    let mut letters = without_line_ends(alloc, value)?;
    let count = letters_len(letters.as_slice());
    letters.truncate(count);
    Ok(letters)
}

fn without_line_ends(alloc: Global, value: &[u8]) -> Result<Bytes, NoMemory>
    ensures { IfOk result (λ bytes. bytes ≡ filter (λ c. not (is_line_end c)) value.now) }
{
    let kept = value
        .iter()
        .copied()
        .filter(|byte| !is_line_end(*byte))
        .collect(alloc)?;
    Ok(Bytes::from_vec(kept))
}

fn letters_len(text: &[u8]) -> usize
    ensures count { result ≡ length (take_while is_letter text.now) }
    ensures within { result ≤ length text.now }
{
    text.iter().take_while(|c| is_letter(**c)).count()
}

/// Groups of four letters of base64, the last of which may be shorter.
struct Groups;

impl Decoder for Groups {
    ghost piece = { group };

    // No letter of base64 stands for itself.
    fn plain_len(&self, _: &[u8]) -> usize {
        0
    }

    fn piece(&self, front: &[u8]) -> Piece {
        match front {
            [a, b, c, d, ..] => {
                let mut gives = ArrayVec::new();
                gives.push(first_byte(*a, *b));
                gives.push(second_byte(*b, *c));
                gives.push(third_byte(*c, *d));
                Piece { gives, takes: 4 }
            }
            [a, b, c] => {
                let mut gives = ArrayVec::new();
                gives.push(first_byte(*a, *b));
                gives.push(second_byte(*b, *c));
                Piece { gives, takes: 3 }
            }
            [a, b] => Piece::byte(first_byte(*a, *b), 2),
            _ => Piece::nothing(1),
        }
    }
}

fn first_byte(a: u8, b: u8) -> u8
    ensures { result ≡ first_byte a b }
{
    sextet(a) * 4 + sextet(b) / 16
}

fn second_byte(b: u8, c: u8) -> u8
    ensures { result ≡ second_byte b c }
{
    sextet(b) % 16 * 16 + sextet(c) / 4
}

fn third_byte(c: u8, d: u8) -> u8
    ensures { result ≡ third_byte c d }
{
    sextet(c) % 4 * 64 + sextet(d)
}

/// The six bits of a letter, 0 for another byte.
fn sextet(byte: u8) -> u8
    ensures number { result ≡ sextet byte }
    ensures small { result < 2 ^ 6 }
{
    match byte {
        CAPITAL_A..=CAPITAL_Z => byte - CAPITAL_A,
        SMALL_A..=SMALL_Z => byte - SMALL_A + SMALL_LETTERS,
        ZERO..=NINE => byte - ZERO + DIGITS,
        PLUS => PLUS_SEXTET,
        SLASH => SLASH_SEXTET,
        _ => 0,
    }
}

fn is_letter(byte: u8) -> bool
    ensures { result ≡ is_letter byte }
{
    matches!(byte, CAPITAL_A..=CAPITAL_Z | SMALL_A..=SMALL_Z | ZERO..=NINE | PLUS | SLASH)
}

fn is_line_end(byte: u8) -> bool
    ensures { result ≡ is_line_end byte }
{
    matches!(byte, CARRIAGE_RETURN | LINE_FEED)
}
