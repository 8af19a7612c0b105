ghost use Rattle.std.specs.Prelude.{◌≡◌};
ghost use Rattle.std.specs.Char.{is_ascii_digit};
ghost use Rattle.std.specs.List.{list_all};
ghost use Rattle.command_line.specs.Numbers.{is_number, number_in};

const NOUGHT: u8 = b'0';

// The number that a text of digits writes, where it is within these bounds.
pub(crate) fn read_number(text: &str, low: u64, high: u64) -> Option<u64>
    ensures { result ≡ number_in low high text.now }
{
    if !has_number_form(text.as_bytes()) {
        return None;
    }
    let Ok(number) = text.parse::<u64>() else {
        return None;
    };
    if low <= number && number <= high {
        Some(number)
    } else {
        None
    }
}

// `parse` alone would take a plus in front, and noughts.
fn has_number_form(text: &[u8]) -> bool
    ensures { result ≡ is_number text.now }
{
    match text {
        [] => false,
        [digit] => digit.is_ascii_digit(),
        [first, ..] => *first != NOUGHT && has_digits_only(text),
    }
}

fn has_digits_only(text: &[u8]) -> bool
    ensures { result ≡ list_all is_ascii_digit text.now }
{
    text.iter().all(|byte| byte.is_ascii_digit())
}
