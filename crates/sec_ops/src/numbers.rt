ghost use Rattle.std.specs.Prelude.{◌≡◌, ◌≤◌, ◌+◌, ◌*◌, ◌^◌, min, pos, neg_ℤ};
ghost use Rattle.std.specs.Ordering.{int_cmp};
ghost use Rattle.sec_ops.specs.declared.numbers.TheConstants.{DECIMAL};
ghost use Rattle.sec_ops.specs.Number.{number, trimmed, digits_number, is_whitespace, is_digit, positive, negative};

use crate::characters::{CARRIAGE_RETURN, MINUS, PLUS, SPACE, TAB, ZERO};
use std::cmp::Ordering;

/// The base of the numbers that are compared.
pub const DECIMAL: u64 = 10;

/// How the number of a value stands to that of the argument.
pub(crate) fn order_of(argument: &[u8], value: &[u8]) -> Ordering
    ensures { result ≡ int_cmp (number value.now) (number argument.now) }
{
    number(value).cmp(&number(argument))
}

/// The number of a text: at most one sign and then digits, after the whitespace at its front, and 0
/// where there is none. What is beyond `i64` is its nearest end.
pub fn number(text: &[u8]) -> i64
    ensures { result ≡ number text.now }
{
    match behind_whitespace(text) {
        [MINUS, digits @ ..] => below_zero(magnitude(digits)),
        [PLUS, digits @ ..] => above_zero(magnitude(digits)),
        digits => above_zero(magnitude(digits)),
    }
}

fn behind_whitespace(text: &[u8]) -> &[u8]
    ensures { result.now ≡ trimmed text.now }
{
    for (index, byte) in text.iter().enumerate() {
        if !is_whitespace(*byte) {
            return text.split_at(index).1;
        }
    }
    &[]
}

/// The number of the digits at the front, or 2^63 where it is more.
pub(crate) fn magnitude(text: &[u8]) -> u64
    ensures { result ≡ min (digits_number text.now) (2 ^ 63) }
{
    let mut sum = 0u64;
    for byte in text {
        if !is_digit(*byte) {
            return sum;
        }
        sum = and_digit(sum, *byte - ZERO);
    }
    sum
}

fn and_digit(sum: u64, digit: u8) -> u64
    ensures { result ≡ min (sum * DECIMAL + digit) (2 ^ 63) }
{
    sum.saturating_mul(DECIMAL)
        .saturating_add(u64::from(digit))
        .min(1 << 63)
}

fn above_zero(n: u64) -> i64
    ensures { result ≡ positive n }
{
    i64::try_from(n).unwrap_or(i64::MAX)
}

fn below_zero(n: u64) -> i64
    ensures { result ≡ negative n }
{
    match i64::try_from(n) {
        Ok(n) => -n,
        Err(_) => i64::MIN,
    }
}

fn is_whitespace(byte: u8) -> bool
    ensures { result ≡ is_whitespace byte }
{
    matches!(byte, TAB..=CARRIAGE_RETURN | SPACE)
}

pub(crate) fn is_digit(byte: u8) -> bool
    ensures { result ≡ is_digit byte }
{
    byte.is_ascii_digit()
}
