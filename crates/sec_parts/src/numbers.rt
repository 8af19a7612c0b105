ghost use Rattle.std.specs.Prelude.{◌≡◌, ◌<◌, ◌≤◌, ◌^◌, length, IsTrue};
ghost use Rattle.std.specs.List.{list_all};
ghost use Rattle.sec_parts.specs.Numbers.{is_digit, is_number, number_in, value_of};

// Numbers are decimal.
const BASE: u64 = 10;

const ZERO: u8 = b'0';

// As many digits as the greatest number of 32 bits has.
const MAX_DIGITS: usize = 10;

fn value(text: &[u8]) -> u64
    requires { length text.now ≤ MAX_DIGITS }
    ensures { result ≡ value_of text.now }
{
    let mut number = 0;
    for byte in text {
        number = number * BASE + u64::from(byte.saturating_sub(ZERO));
    }
    number
}

fn has_digits_only(text: &[u8]) -> bool
    ensures { result ≡ list_all is_digit text.now }
{
    text.iter().all(|b| b.is_ascii_digit())
}

fn has_number_form(text: &[u8]) -> bool
    ensures form { result ≡ is_number text.now }
    ensures short { IsTrue result → length text.now ≤ MAX_DIGITS }
{
    match text {
        [] => false,
        [digit] => digit.is_ascii_digit(),
        [first, rest @ ..] => *first != ZERO && has_digits_only(text) && rest.len() < MAX_DIGITS,
    }
}

/// A number in decimal digits without a sign or a leading zero, where it is within these bounds.
pub fn read_number(text: &[u8], low: u32, high: u32) -> Option<u32>
    ensures { result ≡ number_in low high text.now }
{
    if !has_number_form(text) {
        return None;
    }
    let number = value(text);
    if u64::from(low) <= number && number <= u64::from(high) {
        Some(number as u32)
    } else {
        None
    }
}
