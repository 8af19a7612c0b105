ghost use Rattle.std.specs.Prelude.{◌≡◌, ◌≤◌, ◌<◌, length, option_copied, IfSome};
ghost use Rattle.std.specs.List.{list_all};
ghost use Rattle.sec_text.specs.Quotes.{is_blank};
ghost use Rattle.sec_parts.specs.Texts.{begins_named, behind_first, ends_open, piece_before, skip_blanks, to_byte, to_either, trim, trim_end};

use sec_text::characters::BACKSLASH;
use sec_text::{Margin, is_blank_byte};

pub fn trim_front(text: &[u8]) -> &[u8]
    ensures { result.now ≡ skip_blanks text.now }
{
    sec_text::trim_start(Margin::Blanks, text)
}

pub fn trim_back(text: &[u8]) -> &[u8]
    ensures { result.now ≡ trim_end text.now }
{
    sec_text::trim_end(Margin::Blanks, text)
}

pub fn trim_blanks(text: &[u8]) -> &[u8]
    ensures { result.now ≡ trim text.now }
{
    trim_back(trim_front(text))
}

pub fn is_all_blank(text: &[u8]) -> bool
    ensures { result ≡ list_all is_blank text.now }
{
    text.iter().all(|b| is_blank_byte(*b))
}

// How many bytes stand before the first of this value, or all.
pub fn count_to(text: &[u8], byte: u8) -> usize
    ensures count { result ≡ to_byte byte text.now }
    ensures within { result ≤ length text.now }
{
    let mut count = 0;
    while count < text.len() && text[count] != byte {
        count += 1;
    }
    count
}

// How many bytes stand before the first of these two values, or all.
pub fn count_to_either(text: &[u8], one: u8, other: u8) -> usize
    ensures count { result ≡ to_either one other text.now }
    ensures within { result ≤ length text.now }
{
    let mut count = 0;
    while count < text.len() && text[count] != one && text[count] != other {
        count += 1;
    }
    count
}

pub fn has_open_end(text: &[u8]) -> bool
    ensures { result ≡ ends_open text.now }
{
    match text {
        [] => false,
        [.., last] => *last == BACKSLASH,
    }
}

// What stands behind the byte that a text begins with.
pub fn after_first(rest: &[u8]) -> Option<&[u8]>
    ensures after { option_copied result ≡ behind_first rest.now }
    ensures shorter { IfSome result (λ after. length after.now < length rest.now) }
{
    match rest {
        [] => None,
        [_, after @ ..] => Some(after),
    }
}

// What stands before the end `rest` of a text, without blanks around it.
pub fn piece_of<'a>(text: &'a [u8], rest: &[u8]) -> &'a [u8]
    requires { length rest.now ≤ length text.now }
    ensures { result.now ≡ piece_before text.now rest.now }
{
    trim_blanks(text.split_at(text.len() - rest.len()).0)
}

pub fn begins_with_name(word: &[u8], beginning: &[u8]) -> bool
    ensures { result ≡ begins_named beginning.now word.now }
{
    if word.len() < beginning.len() {
        return false;
    }
    word.split_at(beginning.len())
        .0
        .eq_ignore_ascii_case(beginning)
}
