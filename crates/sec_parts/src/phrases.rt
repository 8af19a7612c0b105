ghost use Rattle.std.specs.Prelude.{◌≡◌, ◌≤◌, ◌<◌, length, take, drop, IfOk, IfSome, Bool, List, Result, ℕ, Some};
ghost use Rattle.std.specs.List.{position_or_len, prefix_len};
ghost use Rattle.std.specs.Option.{option_map};
ghost use Rattle.sec_text.specs.Quotes.{is_blank};
ghost use Rattle.sec_text.specs.Readers.{ReadsAll};
ghost use Rattle.sec_parts.specs.declared.faults.Bad.{Bad};
ghost use Rattle.sec_parts.specs.Results.{Gives};
ghost use Rattle.sec_parts.specs.Texts.{to_byte};
ghost use Rattle.sec_parts.specs.Phrases.{addresses_of, as_it_is, ends_in_order, hex_bytes, in_order, byte_of, is_parting, is_range, next_word, phrase, phrase_part, phrases_of, range, ranges_of, up_to_bar, words_of};

use crate::faults::{Refusal, bad_word};
use crate::limits::MAX_BYTE;
use crate::numbers::read_number;
use crate::texts::{count_to, trim_front};
use hex::FromHexError;
use sec_text::characters::{BAR, COMMA, MINUS};
use sec_text::is_blank_byte;
use std::alloc::Global;
use waf_plain::{Bytes, Seq};

fn is_parting_byte(byte: u8) -> bool
    ensures { result ≡ is_parting byte }
{
    is_blank_byte(byte) || byte == COMMA
}

fn count_parting(text: &[u8]) -> usize
    ensures count { result ≡ prefix_len is_parting text.now }
    ensures within { result ≤ length text.now }
{
    let mut count = 0;
    while count < text.len() && is_parting_byte(text[count]) {
        count += 1;
    }
    count
}

fn count_to_parting(text: &[u8]) -> usize
    ensures count { result ≡ position_or_len is_parting text.now }
    ensures within { result ≤ length text.now }
{
    let mut count = 0;
    while count < text.len() && !is_parting_byte(text[count]) {
        count += 1;
    }
    count
}

pub fn count_to_blank(text: &[u8]) -> usize
    ensures count { result ≡ position_or_len is_blank text.now }
    ensures within { result ≤ length text.now }
{
    let mut count = 0;
    while count < text.len() && !is_blank_byte(text[count]) {
        count += 1;
    }
    count
}

// The bytes of pairs of hexadecimal digits, at least one.
fn read_hex(alloc: Global, whole: &[u8], digits: &[u8]) -> Result<Bytes, Refusal>
    ensures { Gives (λ b. b) result (hex_bytes whole.now digits.now) }
{
    if digits.is_empty() {
        return Err(bad_word(alloc, whole));
    }
    match hex::decode(alloc, digits) {
        Ok(bytes) => Ok(Bytes::from_vec(bytes)),
        Err(FromHexError::OutOfMemory) => Err(Refusal::NoMemory),
        Err(_) => Err(bad_word(alloc, whole)),
    }
}

// Digits up to the next bar, and what stands behind it.
fn read_to_bar<'a>(
    alloc: Global,
    whole: &[u8],
    text: &'a [u8],
) -> Result<(Bytes, &'a [u8]), Refusal>
    ensures part { Gives (λ x.
        Some (x.0, x.1.now)) result
        (up_to_bar whole.now (take (to_byte BAR text.now) text.now) (drop (to_byte BAR text.now) text.now)) }
    ensures within { IfOk result (λ x. length (x.1).now ≤ length text.now) }
{
    let (digits, rest) = text.split_at(count_to(text, BAR));
    match rest {
        [] => Err(bad_word(alloc, whole)),
        [_, after @ ..] => {
            let bytes = read_hex(alloc, whole, digits)?;
            Ok((bytes, after))
        }
    }
}

#[tactic(auto, unfolding(crate::specs::Phrases::phrase_part))]
fn read_phrase_part<'a>(
    alloc: Global,
    whole: &[u8],
    text: &'a [u8],
) -> Result<Option<(Bytes, &'a [u8])>, Refusal>
    ensures part { Gives (λ read. option_map (λ x. (x.0, x.1.now)) read) result (phrase_part whole.now text.now) }
    ensures shorter { IfOk result (λ read. IfSome read (λ x. length (x.1).now < length text.now)) }
{
    match text {
        [] => Ok(None),
        [BAR, rest @ ..] => {
            let (bytes, after) = read_to_bar(alloc, whole, rest)?;
            Ok(Some((bytes, after)))
        }
        _ => {
            let (bytes, after) = text.split_at(count_to(text, BAR));
            Ok(Some((Bytes::copy(alloc, bytes)?, after)))
        }
    }
}

fn read_phrase(alloc: Global, word: &[u8]) -> Result<Bytes, Refusal>
    ensures { Gives (λ b. b) result (phrase word.now) }
{
    let mut bytes = Bytes::new(alloc);
    let mut rest = word;
    loop {
        let Some((part, after)) = read_phrase_part(alloc, word, rest)? else {
            return Ok(bytes);
        };
        bytes.append(part.as_slice())?;
        rest = after;
    }
}

#[tactic(auto, using(crate::proofs::WordLaws::some_before))]
fn next_phrase(alloc: Global, text: &[u8]) -> Result<Option<(Bytes, &[u8])>, Refusal>
    ensures part { Gives (λ read. option_map (λ x. (x.0, x.1.now)) read) result (next_word is_blank phrase text.now) }
    ensures shorter { IfOk result (λ read. IfSome read (λ x. length (x.1).now < length text.now)) }
{
    let here = trim_front(text);
    if here.is_empty() {
        return Ok(None);
    }
    let (word, rest) = here.split_at(count_to_blank(here));
    let phrase = read_phrase(alloc, word)?;
    Ok(Some((phrase, rest)))
}

// The phrases of an argument, parted by blanks.
pub fn read_phrases(alloc: Global, argument: &[u8]) -> Result<Seq<Bytes>, Refusal>
    ensures { Gives (λ words. words) result (phrases_of argument.now) }
{
    let mut words = Seq::new(alloc);
    let mut rest = argument;
    loop {
        let Some((word, after)) = next_phrase(alloc, rest)? else {
            return Ok(words);
        };
        words.push(word)?;
        rest = after;
    }
}

fn copy_word(alloc: Global, word: &[u8]) -> Result<Bytes, Refusal>
    ensures { Gives (λ w. w) result (as_it_is word.now) }
{
    Ok(Bytes::copy(alloc, word)?)
}

#[tactic(auto, using(crate::proofs::WordLaws::some_before))]
fn next_address(alloc: Global, text: &[u8]) -> Result<Option<(Bytes, &[u8])>, Refusal>
    ensures part { Gives (λ read.
        option_map (λ x. (x.0, x.1.now)) read) result (next_word is_parting as_it_is text.now) }
    ensures shorter { IfOk result (λ read. IfSome read (λ x. length (x.1).now < length text.now)) }
{
    let here = text.split_at(count_parting(text)).1;
    if here.is_empty() {
        return Ok(None);
    }
    let (word, rest) = here.split_at(count_to_parting(here));
    let address = copy_word(alloc, word)?;
    Ok(Some((address, rest)))
}

// The words of an argument that names addresses. They are not looked at.
pub fn read_addresses(alloc: Global, argument: &[u8]) -> Result<Seq<Bytes>, Refusal>
    ensures { Gives (λ words. words) result (addresses_of argument.now) }
{
    let mut words = Seq::new(alloc);
    let mut rest = argument;
    loop {
        let Some((word, after)) = next_address(alloc, rest)? else {
            return Ok(words);
        };
        words.push(word)?;
        rest = after;
    }
}

fn are_in_order(first: Option<u32>, last: Option<u32>) -> bool
    ensures { result ≡ in_order first last }
{
    match (first, last) {
        (Some(first), Some(last)) => first <= last,
        (Some(_), None) => false,
        (None, _) => false,
    }
}

fn read_byte(text: &[u8]) -> Option<u32>
    ensures { result ≡ byte_of text.now }
{
    read_number(text, 0, MAX_BYTE)
}

fn has_range_form(word: &[u8]) -> bool
    ensures { result ≡ is_range word.now }
{
    let (first, rest) = word.split_at(count_to(word, MINUS));
    match rest {
        [] => are_in_order(read_byte(first), read_byte(first)),
        [_, last @ ..] => are_in_order(read_byte(first), read_byte(last)),
    }
}

#[tactic(auto, unfolding(crate::specs::Phrases::range))]
fn read_range(alloc: Global, word: &[u8]) -> Result<Bytes, Refusal>
    ensures { Gives (λ w. w) result (range word.now) }
{
    if !has_range_form(word) {
        return Err(bad_word(alloc, word));
    }
    Ok(Bytes::copy(alloc, word)?)
}

#[tactic(auto, using(crate::proofs::WordLaws::some_before))]
fn next_range(alloc: Global, text: &[u8]) -> Result<Option<(Bytes, &[u8])>, Refusal>
    ensures part { Gives (λ read. option_map (λ x. (x.0, x.1.now)) read) result (next_word is_parting range text.now) }
    ensures shorter { IfOk result (λ read. IfSome read (λ x. length (x.1).now < length text.now)) }
{
    let here = text.split_at(count_parting(text)).1;
    if here.is_empty() {
        return Ok(None);
    }
    let (word, rest) = here.split_at(count_to_parting(here));
    let range = read_range(alloc, word)?;
    Ok(Some((range, rest)))
}

// The numbers and ranges of bytes of an argument, as they are written.
pub fn read_ranges(alloc: Global, argument: &[u8]) -> Result<Seq<Bytes>, Refusal>
    ensures { Gives (λ words. words) result (ranges_of argument.now) }
{
    let mut words = Seq::new(alloc);
    let mut rest = argument;
    loop {
        let Some((word, after)) = next_range(alloc, rest)? else {
            return Ok(words);
        };
        words.push(word)?;
        rest = after;
    }
}

/// The words of an argument have one reading, up to its end or to the first fault, whatever parts
/// them and whatever is made of each.
pub fn one_reading_of_words()
    ensures { (parts : ℕ → Bool) (make : List ℕ → Result (List ℕ) Bad) (text : List ℕ)
        → ReadsAll (next_word parts make) text (words_of parts make text) }
{}
