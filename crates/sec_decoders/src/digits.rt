ghost use Rattle.std.specs.Prelude.{◌≡◌, ◌<◌, ◌≤◌, ◌+◌, ◌*◌, ◌%◌, ◌∷◌, [], IfSome, length, drop, take};
ghost use Rattle.std.specs.List.{take_while};
ghost use Rattle.sec_decoders.specs.Digits.{hex_digit, hex_number, is_hex, is_octal, digit_of, number_in};
ghost use Rattle.sec_decoders.specs.declared.digits.TheConstants.{HEXADECIMAL};

use crate::characters::{CAPITAL_A, CAPITAL_F, NINE, SMALL_A, SMALL_F, ZERO};

/// The base of octal numbers.
pub const OCTAL: u8 = 8;
/// The base of decimal numbers.
pub const DECIMAL: u8 = 10;
/// The base of hexadecimal numbers.
pub const HEXADECIMAL: u8 = 16;

/// The number of a hexadecimal digit, of either case.
fn hex_digit(byte: u8) -> Option<u8>
    ensures digit { result ≡ hex_digit byte }
    ensures small { IfSome result (λ n. n < HEXADECIMAL) }
{
    match byte {
        ZERO..=NINE => Some(byte - ZERO),
        SMALL_A..=SMALL_F => Some(byte - SMALL_A + DECIMAL),
        CAPITAL_A..=CAPITAL_F => Some(byte - CAPITAL_A + DECIMAL),
        _ => None,
    }
}

/// The number of two hexadecimal digits.
pub(crate) fn hex_pair(a: u8, b: u8) -> Option<u8>
    ensures { result ≡ hex_number (a ∷ b ∷ []) }
{
    let high = hex_digit(a)?;
    let low = hex_digit(b)?;
    Some(high * HEXADECIMAL + low)
}

/// The number of four hexadecimal digits.
pub(crate) fn hex_four(a: u8, b: u8, c: u8, d: u8) -> Option<u16>
    ensures { result ≡ hex_number (a ∷ b ∷ c ∷ d ∷ []) }
{
    let a = u16::from(hex_digit(a)?);
    let b = u16::from(hex_digit(b)?);
    let c = u16::from(hex_digit(c)?);
    let d = u16::from(hex_digit(d)?);
    Some(a * 4096 + b * 256 + c * 16 + d)
}

/// Whether a byte is a hexadecimal digit.
pub(crate) fn is_hex(byte: u8) -> bool
    ensures { result ≡ is_hex byte }
{
    hex_digit(byte).is_some()
}

/// The number of a digit, 0 for another byte.
pub(crate) fn digit_of(byte: u8) -> u8
    ensures digit { result ≡ digit_of byte }
    ensures small { result < HEXADECIMAL }
{
    hex_digit(byte).unwrap_or(0)
}

/// The number that digits write, without the bits above the low byte.
pub(crate) fn low_byte(base: u8, digits: &[u8]) -> u8
    ensures { result ≡ number_in base digits.now % 256 }
{
    let mut sum = 0u8;
    for digit in digits {
        sum = and_digit(base, sum, digit_of(*digit));
    }
    sum
}

fn and_digit(base: u8, sum: u8, digit: u8) -> u8
    ensures { result ≡ (sum * base + digit) % 256 }
{
    sum.wrapping_mul(base).wrapping_add(digit)
}
