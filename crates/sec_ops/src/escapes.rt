ghost use Rattle.std.specs.Prelude.{◌≡◌, ◌==◌, ◌&&◌, not};
ghost use Rattle.std.specs.Str.{is_utf8};
ghost use Rattle.sec_ops.specs.declared.characters.TheConstants.{PERCENT};
ghost use Rattle.sec_ops.specs.Escapes.{has_bad_escape, two_digits};

use crate::characters::PERCENT;

/// Whether some `%` is not followed by two hexadecimal digits.
pub(crate) fn has_bad_escape(value: &[u8]) -> bool
    ensures { result ≡ has_bad_escape value.now }
{
    let mut rest = value;
    while let Some((first, behind)) = rest.split_first() {
        if is_bad(*first, behind) {
            return true;
        }
        rest = behind;
    }
    false
}

fn is_bad(first: u8, behind: &[u8]) -> bool
    ensures { result ≡ (first == PERCENT && not (two_digits behind.now)) }
{
    first == PERCENT && !two_digits(behind)
}

fn two_digits(text: &[u8]) -> bool
    ensures { result ≡ two_digits text.now }
{
    match text {
        [a, b, ..] => a.is_ascii_hexdigit() && b.is_ascii_hexdigit(),
        _ => false,
    }
}

/// Whether a value is UTF-8.
#[tactic(auto, using(crate::proofs::Texts::text_is, crate::proofs::Texts::no_text))]
pub(crate) fn is_text(value: &[u8]) -> bool
    ensures { result ≡ is_utf8 value.now }
{
    match std::str::from_utf8(value) {
        Ok(_) => true,
        Err(_) => false,
    }
}
