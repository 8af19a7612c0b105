ghost use Rattle.std.specs.Prelude.{◌≡◌, ◌<◌, ◌≤◌, OnSome, IfSome, [], ◌∷◌, length, take, IfOk};
ghost use Rattle.std.specs.Option.{option_map};
ghost use Rattle.sec_decoders.specs.Pieces.{pieces};
ghost use Rattle.sec_decoders.specs.declared.pieces.TheConstants.{LIMIT};
ghost use Rattle.sec_decoders.specs.EscapeSequences.{escaped_x, escaped_octal, escape_sequences};
ghost use Rattle.sec_decoders.specs.declared.lengths.TheConstants.{X_ESCAPE};

use crate::characters::{BACKSLASH, CAPITAL_X, SEVEN, SMALL_X, ZERO};
use crate::digits::hex_pair;
use crate::javascript::ansi_byte;
use crate::lengths::{PAIR, X_ESCAPE};
use crate::plain::len_before;
use crate::{Decoder, Piece, decode};
use std::alloc::Global;
use waf_plain::{Bytes, NoMemory};

/// `escapeSeqDecode` of the ModSecurity reference manual: the escape sequences of ANSI C. A `\` at
/// the end stays.
pub fn escape_seq_decode(alloc: Global, value: &[u8]) -> Result<Bytes, NoMemory>
    ensures { IfOk result (λ bytes. bytes ≡ take LIMIT (pieces escape_sequences 0 value.now)) }
{
    decode(alloc, &EscapeSequences, value)
}

/// The escape sequences of ANSI C.
struct EscapeSequences;

impl Decoder for EscapeSequences {
    ghost piece = { escape_sequences };

    #[tactic(auto, using(crate::proofs::Kept::sequences_kept))]
    fn plain_len(&self, text: &[u8]) -> usize {
        len_before(BACKSLASH, text)
    }

    fn piece(&self, front: &[u8]) -> Piece {
        if let Some(n) = pair(front) {
            return Piece::byte(n, X_ESCAPE);
        }
        if let Some((n, takes)) = octal(front) {
            return Piece::byte(n, takes);
        }
        match front {
            [BACKSLASH, c, ..] => Piece::byte(ansi_byte(*c), PAIR),
            _ => Piece::byte(front[0], 1),
        }
    }
}

/// The number of `\x` or `\X` and two digits.
fn pair(front: &[u8]) -> Option<u8>
    ensures row { escaped_x front.now ≡ option_map (λ n. (n ∷ [], X_ESCAPE)) result }
    ensures there { OnSome result (X_ESCAPE ≤ length front.now) }
{
    match front {
        [BACKSLASH, SMALL_X | CAPITAL_X, a, b, ..] => hex_pair(*a, *b),
        _ => None,
    }
}

/// The number of `\` and octal digits modulo 256, and how many bytes they are.
fn octal(front: &[u8]) -> Option<(u8, usize)>
    ensures row { escaped_octal front.now ≡ option_map (λ n. (n.0 ∷ [], n.1)) result }
    ensures there { IfSome result (λ n. (0 < n.1) × (n.1 ≤ length front.now)) }
{
    match front {
        [
            BACKSLASH,
            a @ ZERO..=SEVEN,
            b @ ZERO..=SEVEN,
            c @ ZERO..=SEVEN,
            ..
        ] => {
            // The first digit above 3 loses its highest bit.
            Some(((a - ZERO) % 4 * 64 + (b - ZERO) * 8 + (c - ZERO), 4))
        }
        [BACKSLASH, a @ ZERO..=SEVEN, b @ ZERO..=SEVEN, ..] => Some((
            (a - ZERO) * 8 + (b - ZERO),
            3,
        )),
        [BACKSLASH, a @ ZERO..=SEVEN, ..] => Some((a - ZERO, 2)),
        _ => None,
    }
}
