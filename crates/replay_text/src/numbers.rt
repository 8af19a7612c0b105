ghost use Rattle.std.specs.Prelude.{◌≡◌, ◌≤◌, IsTrue, length};
ghost use Rattle.std.specs.List.{list_all};
ghost use Rattle.replay_text.specs.declared.numbers.TheConstants.{MOST_DIGITS};
ghost use Rattle.replay_text.specs.Numbers.{is_digit, is_number, number_to, value_of};

// As many digits as a number of 64 bits has at most.
const MOST_DIGITS: usize = 20;

// Numbers are decimal.
const BASE: u128 = 10;

const ZERO: u8 = b'0';

/// A number in decimal digits without a sign or a leading zero, where it is at most this.
pub fn read_number(text: &[u8], most: u64) -> Option<u64>
    ensures { result ≡ number_to most text.now }
{
    if !has_number_form(text) {
        return None;
    }
    let number = value(text);
    if number <= u128::from(most) {
        Some(number as u64)
    } else {
        None
    }
}

fn has_number_form(text: &[u8]) -> bool
    ensures form { result ≡ is_number text.now }
    ensures short { IsTrue result → length text.now ≤ MOST_DIGITS }
{
    match text {
        [] => false,
        [digit] => is_digit_byte(*digit),
        [first, ..] => *first != ZERO && has_digits_only(text) && text.len() <= MOST_DIGITS,
    }
}

fn has_digits_only(text: &[u8]) -> bool
    ensures { result ≡ list_all is_digit text.now }
{
    text.iter().all(|b| is_digit_byte(*b))
}

fn is_digit_byte(byte: u8) -> bool
    ensures { result ≡ is_digit byte }
{
    byte.is_ascii_digit()
}

fn value(text: &[u8]) -> u128
    requires { length text.now ≤ MOST_DIGITS }
    ensures { result ≡ value_of text.now }
{
    let mut number = 0;
    for byte in text {
        number = number * BASE + u128::from(byte.saturating_sub(ZERO));
    }
    number
}
