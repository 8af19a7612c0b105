ghost use Rattle.std.specs.Prelude.{◌≡◌, ◌<◌, ◌≤◌, ◌∷◌, [], IfSome, Some, length, drop};
ghost use Rattle.std.specs.Option.{option_map};
ghost use Rattle.pattern_text.specs.Escapes.{control, digit_in, escaped, in_braces, number, numbered, one_byte, two_digits};

use crate::characters::{BELL, CARRIAGE_RETURN, ESCAPE, FORM_FEED, LINE_FEED, TAB};
use crate::fronts::after;

/// The base of the digits after `\x`.
pub const HEXADECIMAL: u8 = 16;
/// The base of the digits after `\0`.
pub const OCTAL: u8 = 8;

/// The byte that an escape stands for, from what follows its backslash on, and how many bytes after
/// the backslash that takes.
#[tactic(auto, unfolding(crate::specs::Escapes::escaped))]
pub(crate) fn escaped(text: &[u8]) -> Option<(u8, usize)>
    ensures byte { result ≡ escaped text.now }
    ensures within { IfSome result (λ e. (0 < e.1) × (e.1 ≤ length text.now)) }
{
    if text.starts_with(b"x{") {
        return in_braces(text);
    }
    if text.starts_with(b"x") {
        return Some(numbered(HEXADECIMAL, text));
    }
    if text.starts_with(b"0") {
        return Some(numbered(OCTAL, text));
    }
    one_byte(text)
}

/// A letter, a brace, one or two hexadecimal digits and a brace.
fn in_braces(text: &[u8]) -> Option<(u8, usize)>
    requires { 2 ≤ length text.now }
    ensures byte { result ≡ in_braces (drop 2 text.now) }
    ensures within { IfSome result (λ e. (0 < e.1) × (e.1 ≤ length text.now)) }
{
    let digits = after(2, text);
    let (number, count) = two_digits(HEXADECIMAL, digits);
    if count == 0 || !after(count, digits).starts_with(b"}") {
        return None;
    }
    Some((number, count + 3))
}

/// A letter and the digits after it.
fn numbered(base: u8, text: &[u8]) -> (u8, usize)
    requires base { base ≤ 16 }
    requires letter { 1 ≤ length text.now }
    ensures byte { Some result ≡ numbered base (drop 1 text.now) }
    ensures within { (0 < result.1) × (result.1 ≤ length text.now) }
{
    let (number, count) = two_digits(base, after(1, text));
    (number, count + 1)
}

/// The number of the digits at the front, two at most, and how many they are.
fn two_digits(base: u8, text: &[u8]) -> (u8, usize)
    requires { base ≤ 16 }
    ensures number { result.0 ≡ number base (two_digits base text.now) }
    ensures count { result.1 ≡ length (two_digits base text.now) }
    ensures few { result.1 ≤ 2 }
    ensures within { result.1 ≤ length text.now }
{
    match text {
        [] => (0, 0),
        [a] => one_digit(base, *a),
        [a, b, ..] => {
            let Some(high) = digit(base, *a) else {
                return (0, 0);
            };
            let Some(low) = digit(base, *b) else {
                return (high, 1);
            };
            (high * base + low, 2)
        }
    }
}

fn one_digit(base: u8, byte: u8) -> (u8, usize)
    requires { base ≤ 16 }
    ensures number { result.0 ≡ number base (two_digits base (byte ∷ [])) }
    ensures count { result.1 ≡ length (two_digits base (byte ∷ [])) }
    ensures few { result.1 ≤ 1 }
{
    match digit(base, byte) {
        Some(value) => (value, 1),
        None => (0, 0),
    }
}

/// The value of a digit of this base.
fn digit(base: u8, byte: u8) -> Option<u8>
    requires { base ≤ 16 }
    ensures value { result ≡ digit_in base byte }
    ensures small { IfSome result (λ n. n < base) }
{
    let value = match byte {
        b'0'..=b'9' => byte - b'0',
        b'A'..=b'F' => byte - b'A' + 10,
        b'a'..=b'f' => byte - b'a' + 10,
        _ => return None,
    };
    if value < base { Some(value) } else { None }
}

fn one_byte(text: &[u8]) -> Option<(u8, usize)>
    ensures byte { result ≡ one_byte text.now }
    ensures within { IfSome result (λ e. (0 < e.1) × (e.1 ≤ length text.now)) }
{
    match text {
        [] => None,
        [c, ..] => {
            if !c.is_ascii_alphanumeric() {
                return Some((*c, 1));
            }
            control(*c)
        }
    }
}

/// The byte of a letter that stands for a control character.
fn control(letter: u8) -> Option<(u8, usize)>
    ensures { result ≡ option_map (λ b. (b, 1)) (control letter) }
{
    let byte = match letter {
        b'a' => BELL,
        b'e' => ESCAPE,
        b'f' => FORM_FEED,
        b'n' => LINE_FEED,
        b'r' => CARRIAGE_RETURN,
        b't' => TAB,
        _ => return None,
    };
    Some((byte, 1))
}
