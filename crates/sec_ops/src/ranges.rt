ghost use Rattle.std.specs.Prelude.{◌≡◌, ◌≤◌, length, map, not, Some, IfOk};
ghost use Rattle.std.specs.Option.{option_map};
ghost use Rattle.std.specs.List.{list_all, list_any, take_while};
ghost use Rattle.sec_ops.specs.Number.{is_digit};
ghost use Rattle.sec_ops.specs.Ranges.{byte_of, has_other, has_plain_front, is_in_range, is_plain, pair_of, range_of};

use crate::characters::{MINUS, ZERO};
use crate::numbers::{is_digit, magnitude};
use std::alloc::Global;
use waf_plain::{Bytes, NoMemory, Seq};

/// The first and the last byte; none for a word that names no range.
pub(crate) type Range = Option<(u8, u8)>;

/// The ranges that words name.
pub(crate) fn read_ranges(alloc: Global, words: &Seq<Bytes>) -> Result<Seq<Range>, NoMemory>
    ensures { IfOk result (λ ranges. ranges ≡ map range_of words.now) }
{
    let mut ranges = Seq::new(alloc);
    for word in words.as_slice() {
        ranges.push(range_of(word.as_slice()))?;
    }
    Ok(ranges)
}

#[tactic(auto, unfolding(crate::specs::Ranges::range_of))]
fn range_of(word: &[u8]) -> Range
    ensures { result ≡ range_of word.now }
{
    let (digits, rest) = word.split_at(digits_len(word));
    let low = byte_of(digits);
    match rest {
        [] => single(low),
        [MINUS, high @ ..] => pair_of(low, byte_of(high)),
        _ => None,
    }
}

fn single(low: Option<u8>) -> Range
    ensures { result ≡ option_map (λ n. (n, n)) low }
{
    match low {
        Some(n) => Some((n, n)),
        None => None,
    }
}

fn pair_of(low: Option<u8>, high: Option<u8>) -> Range
    ensures { result ≡ pair_of low high }
{
    match (low, high) {
        (Some(low), Some(high)) => ordered(low, high),
        _ => None,
    }
}

fn ordered(low: u8, high: u8) -> Range
    ensures { result ≡ pair_of (Some low) (Some high) }
{
    if low <= high { Some((low, high)) } else { None }
}

fn digits_len(text: &[u8]) -> usize
    ensures count { result ≡ length (take_while is_digit text.now) }
    ensures within { result ≤ length text.now }
{
    text.iter().take_while(|c| is_digit(**c)).count()
}

#[tactic(auto, unfolding(crate::specs::Ranges::byte_of))]
fn byte_of(text: &[u8]) -> Option<u8>
    ensures { result ≡ byte_of text.now }
{
    if !is_plain(text) {
        return None;
    }
    let n = magnitude(text);
    if n < 256 { Some(n as u8) } else { None }
}

fn is_plain(text: &[u8]) -> bool
    ensures { result ≡ is_plain text.now }
{
    has_plain_front(text) && all_digits(text)
}

fn all_digits(text: &[u8]) -> bool
    ensures { result ≡ list_all is_digit text.now }
{
    text.iter().all(|c| is_digit(*c))
}

fn has_plain_front(text: &[u8]) -> bool
    ensures { result ≡ has_plain_front text.now }
{
    match text {
        [] => false,
        [_] => true,
        [c, ..] => *c != ZERO,
    }
}

/// Whether some byte is in none of the ranges.
pub(crate) fn has_other(ranges: &[Range], value: &[u8]) -> bool
    ensures { result ≡ has_other ranges.now value.now }
{
    value.iter().any(|c| !is_in_some(ranges, *c))
}

fn is_in_some(ranges: &[Range], byte: u8) -> bool
    ensures { result ≡ list_any (is_in_range byte) ranges.now }
{
    for range in ranges {
        if is_in_range(byte, *range) {
            return true;
        }
    }
    false
}

fn is_in_range(byte: u8, range: Range) -> bool
    ensures { result ≡ is_in_range byte range }
{
    match range {
        None => false,
        Some((low, high)) => low <= byte && byte <= high,
    }
}
