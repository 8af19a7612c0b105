ghost use Rattle.std.specs.Prelude.{◌≡◌, ◌<◌, ◌≤◌, OnSome, [], ◌∷◌, length, take, IfOk};
ghost use Rattle.std.specs.Option.{option_map};
ghost use Rattle.sec_decoders.specs.Pieces.{pieces};
ghost use Rattle.sec_decoders.specs.declared.pieces.TheConstants.{LIMIT};
ghost use Rattle.sec_decoders.specs.UrlUni.{narrowed, percent_u, percent, plus, url_uni};
ghost use Rattle.sec_decoders.specs.declared.lengths.TheConstants.{FOUR_DIGIT_ESCAPE, PERCENT_ESCAPE};

use crate::characters::{CAPITAL_U, PERCENT, PLUS, SMALL_U, SPACE};
use crate::digits::{hex_four, hex_pair};
use crate::lengths::{FOUR_DIGIT_ESCAPE, PERCENT_ESCAPE};
use crate::plain::len_before_either;
use crate::{Decoder, Piece, decode};
use std::alloc::Global;
use waf_plain::{Bytes, NoMemory};

/// The full-width form of `!`, the first.
pub const FIRST_WIDE: u32 = 0xff01;
/// The full-width form of `~`, the last.
pub const LAST_WIDE: u32 = 0xff5e;
/// How far a full-width form stands from its letter.
pub const WIDE_OFFSET: u32 = 0xfee0;

/// `urlDecodeUni` of the ModSecurity reference manual: percent-encoding, `+` for a space, and the
/// `%uHHHH` of IIS, of which a full-width letter gives its narrow form. Other `%` stay.
pub fn url_decode_uni(alloc: Global, value: &[u8]) -> Result<Bytes, NoMemory>
    ensures { IfOk result (λ bytes. bytes ≡ take LIMIT (pieces url_uni 0 value.now)) }
{
    decode(alloc, &UrlUni, value)
}

/// Percent-encoding with `%uHHHH`.
struct UrlUni;

impl Decoder for UrlUni {
    ghost piece = { url_uni };

    #[tactic(auto, using(crate::proofs::Kept::url_kept))]
    fn plain_len(&self, text: &[u8]) -> usize {
        len_before_either(PERCENT, PLUS, text)
    }

    fn piece(&self, front: &[u8]) -> Piece {
        if let Some(n) = wide(front) {
            return Piece::byte(narrow(u32::from(n)), FOUR_DIGIT_ESCAPE);
        }
        if let Some(n) = pair(front) {
            return Piece::byte(n, PERCENT_ESCAPE);
        }
        let byte = front[0];
        Piece::byte(if byte == PLUS { SPACE } else { byte }, 1)
    }
}

/// The number of `%u` and four digits.
fn wide(front: &[u8]) -> Option<u16>
    ensures row { percent_u front.now ≡ option_map (λ n. (narrowed n ∷ [], FOUR_DIGIT_ESCAPE)) result }
    ensures there { OnSome result (FOUR_DIGIT_ESCAPE ≤ length front.now) }
{
    match front {
        [PERCENT, SMALL_U | CAPITAL_U, a, b, c, d, ..] => hex_four(*a, *b, *c, *d),
        _ => None,
    }
}

/// The number of `%` and two digits.
fn pair(front: &[u8]) -> Option<u8>
    ensures row { percent front.now ≡ option_map (λ n. (n ∷ [], PERCENT_ESCAPE)) result }
    ensures there { OnSome result (PERCENT_ESCAPE ≤ length front.now) }
{
    match front {
        [PERCENT, a, b, ..] => hex_pair(*a, *b),
        _ => None,
    }
}

/// The low byte of a number, or, for a full-width form (U+FF01 to U+FF5E), the letter itself.
pub(crate) fn narrow(n: u32) -> u8
    ensures { result ≡ narrowed n }
{
    if (FIRST_WIDE..=LAST_WIDE).contains(&n) {
        (n - WIDE_OFFSET) as u8
    } else {
        (n % 256) as u8
    }
}
