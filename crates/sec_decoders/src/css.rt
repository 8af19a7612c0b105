ghost use Rattle.std.specs.Prelude.{◌≡◌, ◌<◌, ◌≤◌, ◌+◌, ◌^◌, [], ◌∷◌, length, take, drop, IfOk, IfSome};
ghost use Rattle.std.specs.Option.{option_map};
ghost use Rattle.std.specs.List.{take_while};
ghost use Rattle.sec_decoders.specs.Digits.{is_hex, number_in};
ghost use Rattle.sec_decoders.specs.Pieces.{pieces};
ghost use Rattle.sec_decoders.specs.declared.pieces.TheConstants.{LIMIT};
ghost use Rattle.sec_decoders.specs.Css.{css, css_number, css_digits, six_digits, space};
ghost use Rattle.sec_decoders.specs.declared.lengths.TheConstants.{MAX_CSS_DIGITS};
ghost use Rattle.sec_decoders.specs.declared.digits.TheConstants.{HEXADECIMAL};

use crate::characters::{BACKSLASH, CARRIAGE_RETURN, LINE_FEED, SPACE, TAB};
use crate::digits::{digit_of, is_hex};
use crate::lengths::{MAX_CSS_DIGITS, PAIR};
use crate::plain::len_before;
use crate::url::narrow;
use crate::{Decoder, Piece, decode};
use std::alloc::Global;
use waf_plain::{Bytes, NoMemory};

/// `cssDecode` of the ModSecurity reference manual: the `\` escapes of CSS 2, section 4.1.3, of
/// which the low byte is taken. A `\` before a line feed or at the end gives nothing.
pub fn css_decode(alloc: Global, value: &[u8]) -> Result<Bytes, NoMemory>
    ensures { IfOk result (λ bytes. bytes ≡ take LIMIT (pieces css 0 value.now)) }
{
    decode(alloc, &Css, value)
}

/// The escapes of CSS.
struct Css;

impl Decoder for Css {
    ghost piece = { css };

    #[tactic(auto, using(crate::proofs::Kept::css_kept))]
    fn plain_len(&self, text: &[u8]) -> usize {
        len_before(BACKSLASH, text)
    }

    fn piece(&self, front: &[u8]) -> Piece {
        if let Some((n, takes)) = number(front) {
            return Piece::byte(n, takes);
        }
        match front {
            [BACKSLASH, LINE_FEED, ..] => Piece::nothing(PAIR),
            [BACKSLASH, c, ..] => Piece::byte(*c, PAIR),
            [BACKSLASH] => Piece::nothing(1),
            _ => Piece::byte(front[0], 1),
        }
    }
}

/// The byte of `\` and digits, and how many bytes they are.
fn number(front: &[u8]) -> Option<(u8, usize)>
    ensures row { css_number front.now ≡ option_map (λ n. (n.0 ∷ [], n.1)) result }
    ensures there { IfSome result (λ n. (0 < n.1) × (n.1 ≤ length front.now)) }
{
    match front {
        [BACKSLASH, ..] => digits_number(front.split_at(1).1),
        _ => None,
    }
}

fn digits_number(text: &[u8]) -> Option<(u8, usize)>
    requires { length text.now + 1 < 2 ^ 63 }
    ensures row { css_digits text.now ≡ option_map (λ n. (n.0 ∷ [], n.1)) result }
    ensures there { IfSome result (λ n. (0 < n.1) × (n.1 ≤ length text.now + 1)) }
{
    let (digits, rest) = digits_of(text);
    if digits.is_empty() {
        return None;
    }
    Some((narrow(short_number(digits)), 1 + digits.len() + space(rest)))
}

/// The digits at the front, at most six, and what is after them.
fn digits_of(text: &[u8]) -> (&[u8], &[u8])
    ensures digits { result.0.now ≡ six_digits text.now }
    ensures rest { result.1.now ≡ drop (length (six_digits text.now)) text.now }
    ensures parts { length text.now ≡ length result.0.now + length result.1.now }
    ensures few { length result.0.now ≤ MAX_CSS_DIGITS }
{
    text.split_at(digits_len(text))
}

fn digits_len(text: &[u8]) -> usize
    ensures count { result ≡ length (six_digits text.now) }
    ensures within { result ≤ length text.now }
    ensures few { result ≤ MAX_CSS_DIGITS }
{
    text.iter()
        .take(MAX_CSS_DIGITS)
        .take_while(|c| is_hex(**c))
        .count()
}

/// The number that at most six hexadecimal digits write.
fn short_number(digits: &[u8]) -> u32
    requires { length digits.now ≤ MAX_CSS_DIGITS }
    ensures { result ≡ number_in HEXADECIMAL digits.now }
{
    let mut sum = 0u32;
    for digit in digits {
        sum = sum * 16 + u32::from(digit_of(*digit));
    }
    sum
}

/// One whitespace byte at the front.
fn space(text: &[u8]) -> usize
    ensures count { result ≡ space text.now }
    ensures within { result ≤ length text.now }
{
    match text {
        [TAB..=CARRIAGE_RETURN | SPACE, ..] => 1,
        _ => 0,
    }
}
