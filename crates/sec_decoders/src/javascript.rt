ghost use Rattle.std.specs.Prelude.{◌≡◌, ◌<◌, ◌≤◌, OnSome, IfSome, [], ◌∷◌, length, take, IfOk};
ghost use Rattle.std.specs.Option.{option_map};
ghost use Rattle.sec_decoders.specs.Pieces.{pieces};
ghost use Rattle.sec_decoders.specs.declared.pieces.TheConstants.{LIMIT};
ghost use Rattle.sec_decoders.specs.UrlUni.{narrowed};
ghost use Rattle.sec_decoders.specs.JavaScript.{backslash_u, backslash_x, backslash_octal, ansi, js};
ghost use Rattle.sec_decoders.specs.declared.lengths.TheConstants.{FOUR_DIGIT_ESCAPE, X_ESCAPE};

use crate::characters::{
    BACKSLASH, BACKSPACE, BELL, CARRIAGE_RETURN, FORM_FEED, LINE_FEED, SEVEN, SMALL_A, SMALL_B,
    SMALL_F, SMALL_N, SMALL_R, SMALL_T, SMALL_U, SMALL_V, SMALL_X, TAB, THREE, VERTICAL_TAB, ZERO,
};
use crate::digits::{hex_four, hex_pair};
use crate::lengths::{FOUR_DIGIT_ESCAPE, PAIR, X_ESCAPE};
use crate::plain::len_before;
use crate::url::narrow;
use crate::{Decoder, Piece, decode};
use std::alloc::Global;
use waf_plain::{Bytes, NoMemory};

/// `jsDecode` of the ModSecurity reference manual: the `\` escapes of JavaScript. A `\` at the end
/// stays.
pub fn js_decode(alloc: Global, value: &[u8]) -> Result<Bytes, NoMemory>
    ensures { IfOk result (λ bytes. bytes ≡ take LIMIT (pieces js 0 value.now)) }
{
    decode(alloc, &JavaScript, value)
}

/// The escapes of JavaScript.
struct JavaScript;

impl Decoder for JavaScript {
    ghost piece = { js };

    #[tactic(auto, using(crate::proofs::Kept::js_kept))]
    fn plain_len(&self, text: &[u8]) -> usize {
        len_before(BACKSLASH, text)
    }

    fn piece(&self, front: &[u8]) -> Piece {
        if let Some(n) = wide(front) {
            return Piece::byte(narrow(u32::from(n)), FOUR_DIGIT_ESCAPE);
        }
        if let Some(n) = pair(front) {
            return Piece::byte(n, X_ESCAPE);
        }
        if let Some((n, takes)) = octal(front) {
            return Piece::byte(n, takes);
        }
        match front {
            [BACKSLASH, c, ..] => Piece::byte(ansi_byte(*c), PAIR),
            _ => Piece::byte(front[0], 1),
        }
    }
}

/// The number of `\u` and four digits.
fn wide(front: &[u8]) -> Option<u16>
    ensures row { backslash_u front.now ≡ option_map (λ n. (narrowed n ∷ [], FOUR_DIGIT_ESCAPE)) result }
    ensures there { OnSome result (FOUR_DIGIT_ESCAPE ≤ length front.now) }
{
    match front {
        [BACKSLASH, SMALL_U, a, b, c, d, ..] => hex_four(*a, *b, *c, *d),
        _ => None,
    }
}

/// The number of `\x` and two digits.
fn pair(front: &[u8]) -> Option<u8>
    ensures row { backslash_x front.now ≡ option_map (λ n. (n ∷ [], X_ESCAPE)) result }
    ensures there { OnSome result (X_ESCAPE ≤ length front.now) }
{
    match front {
        [BACKSLASH, SMALL_X, a, b, ..] => hex_pair(*a, *b),
        _ => None,
    }
}

/// The number of `\` and octal digits, and how many bytes they are.
fn octal(front: &[u8]) -> Option<(u8, usize)>
    ensures row { backslash_octal front.now ≡ option_map (λ n. (n.0 ∷ [], n.1)) result }
    ensures there { IfSome result (λ n. (0 < n.1) × (n.1 ≤ length front.now)) }
{
    match front {
        [
            BACKSLASH,
            a @ ZERO..=THREE,
            b @ ZERO..=SEVEN,
            c @ ZERO..=SEVEN,
            ..
        ] => { Some(((a - ZERO) * 64 + (b - ZERO) * 8 + (c - ZERO), 4)) }
        [BACKSLASH, a @ ZERO..=SEVEN, b @ ZERO..=SEVEN, ..] => Some((
            (a - ZERO) * 8 + (b - ZERO),
            3,
        )),
        [BACKSLASH, a @ ZERO..=SEVEN, ..] => Some((a - ZERO, 2)),
        _ => None,
    }
}

/// The byte that a letter after `\` stands for in ANSI C, and another byte itself.
pub(crate) fn ansi_byte(c: u8) -> u8
    ensures { result ≡ ansi c }
{
    match c {
        SMALL_A => BELL,
        SMALL_B => BACKSPACE,
        SMALL_F => FORM_FEED,
        SMALL_N => LINE_FEED,
        SMALL_R => CARRIAGE_RETURN,
        SMALL_T => TAB,
        SMALL_V => VERTICAL_TAB,
        _ => c,
    }
}
