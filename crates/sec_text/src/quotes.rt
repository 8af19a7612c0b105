ghost use Rattle.std.specs.Prelude.{◌≡◌, ◌≤◌, drop, length, IfOk, IfSome, Some, None};
ghost use Rattle.std.specs.Option.{option_map};
ghost use Rattle.sec_text.specs.Quotes.{begins, quoted, quoted_byte};

use crate::characters::BACKSLASH;
use std::alloc::Global;
use waf_plain::{Bytes, NoMemory};

fn begins_with(bytes: &[u8], byte: u8) -> bool
    ensures { result ≡ begins byte bytes.now }
{
    match bytes {
        [] => false,
        [first, ..] => *first == byte,
    }
}

// The first byte of a text in quotes, or `None` where it closes there, and what follows.
fn read_quoted_byte(quote: u8, bytes: &[u8]) -> Option<(Option<u8>, &[u8])>
    ensures { option_map (λ x. (x.0, x.1.now)) result ≡ quoted_byte quote bytes.now }
{
    match bytes {
        [] => None,
        [first, rest @ ..] => {
            if *first == quote {
                return Some((None, rest));
            }
            if *first == BACKSLASH && begins_with(rest, quote) {
                return Some((Some(quote), rest.split_at(1).1));
            }
            Some((Some(*first), rest))
        }
    }
}

/// The text behind an opening quote, and what follows the closing one; `None` where there is none.
/// The closing one is the first that no `\` stands directly before; in the text `\` and the quote
/// stand for the quote, and every other byte stands for itself.
pub fn read_quoted(
    alloc: Global,
    quote: u8,
    bytes: &[u8],
) -> Result<Option<(Bytes, &[u8])>, NoMemory>
    ensures text { IfOk result (λ read. option_map (λ x. (x.0, x.1.now)) read ≡ quoted quote bytes.now) }
    ensures within { IfOk result (λ read. IfSome read (λ x. length (x.1).now ≤ length bytes.now)) }
{
    let mut text = Bytes::new(alloc);
    let mut rest = bytes;
    while let Some((byte, after)) = read_quoted_byte(quote, rest) {
        let Some(byte) = byte else {
            return Ok(Some((text, after)));
        };
        text.push(byte)?;
        rest = after;
    }
    Ok(None)
}
