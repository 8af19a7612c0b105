ghost use Rattle.std.specs.Prelude.{◌≡◌, ◌<◌, ◌≤◌, ◌%◌, ◌^◌, ◌++◌, length, take, IfOk, IfSome};
ghost use Rattle.std.specs.List.{take_while};
ghost use Rattle.arrayvec.specs.ArrayVec.{array_vec_len};
ghost use Rattle.sec_decoders.specs.Pieces.{pieces};
ghost use Rattle.sec_decoders.specs.declared.pieces.TheConstants.{LIMIT};
ghost use Rattle.sec_decoders.specs.Unicode.{is_no_lead, letter, four_digits, shown, two, three, four, unicode};
ghost use Rattle.sec_decoders.specs.declared.digits.TheConstants.{HEXADECIMAL};

use crate::characters::{PERCENT, SMALL_A, SMALL_U, ZERO};
use crate::digits::DECIMAL;
use crate::{Decoder, Piece, decode};
use arrayvec::ArrayVec;
use std::alloc::Global;
use waf_plain::{Bytes, NoMemory};

/// The first byte of those that follow the first of a sequence: `10xxxxxx`.
pub const MIN_TAIL: u8 = 0x80;
/// The last of these.
pub const MAX_TAIL: u8 = 0xbf;
/// The first byte that two bytes begin with: `110xxxxx`.
pub const MIN_LEAD_OF_TWO: u8 = 0xc0;
/// The last of these.
pub const MAX_LEAD_OF_TWO: u8 = 0xdf;
/// The first byte that three bytes begin with: `1110xxxx`.
pub const MIN_LEAD_OF_THREE: u8 = 0xe0;
/// The last of these.
pub const MAX_LEAD_OF_THREE: u8 = 0xef;
/// The first byte that four bytes begin with: `11110xxx`.
pub const MIN_LEAD_OF_FOUR: u8 = 0xf0;
/// The last of these.
pub const MAX_LEAD_OF_FOUR: u8 = 0xf7;

/// `utf8toUnicode` of the ModSecurity reference manual: each sequence of two to four bytes of UTF-8
/// (RFC 3629, section 3) is shown as `%u` and its number, overlong ones and surrogates too. All
/// other bytes stay.
pub fn utf8_to_unicode(alloc: Global, value: &[u8]) -> Result<Bytes, NoMemory>
    ensures { IfOk result (λ bytes. bytes ≡ take LIMIT (pieces unicode 0 value.now)) }
{
    decode(alloc, &Unicode, value)
}

/// The sequences of UTF-8, by their lead bytes alone.
struct Unicode;

impl Decoder for Unicode {
    ghost piece = { unicode };

    #[tactic(auto, using(crate::proofs::Kept::unicode_kept))]
    fn plain_len(&self, text: &[u8]) -> usize {
        len_before_lead(text)
    }

    fn piece(&self, front: &[u8]) -> Piece {
        if let Some((n, takes)) = two(front) {
            let gives = shown(n);
            return Piece { gives, takes };
        }
        if let Some((n, takes)) = three(front) {
            let gives = shown(n);
            return Piece { gives, takes };
        }
        if let Some((n, takes)) = four(front) {
            let gives = shown(n);
            return Piece { gives, takes };
        }
        Piece::byte(front[0], 1)
    }
}

/// How many bytes there are before the first that two, three or four bytes may begin with.
fn len_before_lead(text: &[u8]) -> usize
    ensures count { result ≡ length (take_while is_no_lead text.now) }
    ensures within { result ≤ length text.now }
{
    text.iter().take_while(|c| is_no_lead(**c)).count()
}

fn is_no_lead(byte: u8) -> bool
    ensures { result ≡ is_no_lead byte }
{
    byte < MIN_LEAD_OF_TWO
}

fn two(front: &[u8]) -> Option<(u32, usize)>
    ensures row { result ≡ two front.now }
    ensures there { IfSome result (λ p. (p.0 < 2 ^ 21) × (0 < p.1) × (p.1 ≤ length front.now)) }
{
    match front {
        [
            a @ MIN_LEAD_OF_TWO..=MAX_LEAD_OF_TWO,
            b @ MIN_TAIL..=MAX_TAIL,
            ..
        ] => {
            Some((
                u32::from(a - MIN_LEAD_OF_TWO) * 64 + u32::from(b - MIN_TAIL),
                2,
            ))
        }
        _ => None,
    }
}

fn three(front: &[u8]) -> Option<(u32, usize)>
    ensures row { result ≡ three front.now }
    ensures there { IfSome result (λ p. (p.0 < 2 ^ 21) × (0 < p.1) × (p.1 ≤ length front.now)) }
{
    match front {
        [
            a @ MIN_LEAD_OF_THREE..=MAX_LEAD_OF_THREE,
            b @ MIN_TAIL..=MAX_TAIL,
            c @ MIN_TAIL..=MAX_TAIL,
            ..
        ] => Some((
            u32::from(a - MIN_LEAD_OF_THREE) * 4096
                + u32::from(b - MIN_TAIL) * 64
                + u32::from(c - MIN_TAIL),
            3,
        )),
        _ => None,
    }
}

fn four(front: &[u8]) -> Option<(u32, usize)>
    ensures row { result ≡ four front.now }
    ensures there { IfSome result (λ p. (p.0 < 2 ^ 21) × (0 < p.1) × (p.1 ≤ length front.now)) }
{
    match front {
        [
            a @ MIN_LEAD_OF_FOUR..=MAX_LEAD_OF_FOUR,
            b @ MIN_TAIL..=MAX_TAIL,
            c @ MIN_TAIL..=MAX_TAIL,
            d @ MIN_TAIL..=MAX_TAIL,
            ..
        ] => Some((
            u32::from(a - MIN_LEAD_OF_FOUR) * 262144
                + u32::from(b - MIN_TAIL) * 4096
                + u32::from(c - MIN_TAIL) * 64
                + u32::from(d - MIN_TAIL),
            4,
        )),
        _ => None,
    }
}

/// `%u` and a number in lower-case hexadecimal, of at least four digits.
fn shown(n: u32) -> ArrayVec<u8, 8>
    ensures { result.items ≡ shown n }
{
    let mut out = ArrayVec::new();
    out.push(PERCENT);
    out.push(SMALL_U);
    if n < 0x10000 {
        push_four(&mut out, n);
        return out;
    }
    if n < 0x100000 {
        out.push(letter(n / 0x10000));
        push_four(&mut out, n);
        return out;
    }
    out.push(letter(n / 0x100000));
    out.push(letter(n / 0x10000));
    push_four(&mut out, n);
    out
}

fn push_four(out: &mut ArrayVec<u8, 8>, n: u32)
    requires { array_vec_len out.old ≤ 4 }
    ensures { out.new.items ≡ out.old.items ++ four_digits n }
{
    out.push(letter(n / 4096));
    out.push(letter(n / 256));
    out.push(letter(n / 16));
    out.push(letter(n));
}

fn letter(n: u32) -> u8
    ensures { result ≡ letter (n % HEXADECIMAL) }
{
    let digit = (n % 16) as u8;
    if digit < DECIMAL {
        ZERO + digit
    } else {
        SMALL_A + (digit - DECIMAL)
    }
}
