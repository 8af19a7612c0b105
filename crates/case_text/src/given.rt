use std::alloc::Global;
use waf_plain::{Bytes, NoMemory, Seq};

/// The number that a given word is in decimal digits.
pub fn number(word: &[u8]) -> Option<u64> {
    match std::str::from_utf8(word) {
        Ok(text) => text.parse::<u64>().ok(),
        Err(_) => None,
    }
}

/// The same of 32 bits.
pub fn small_number(word: &[u8]) -> Option<u32> {
    match number(word) {
        Some(number) => u32::try_from(number).ok(),
        None => None,
    }
}

/// The pieces of a given word between these bytes; the empty word is one empty piece.
pub fn pieces(alloc: Global, word: &[u8], mark: u8) -> Result<Seq<Bytes>, NoMemory> {
    let mut pieces = Seq::new(alloc);
    for piece in word.split(|byte| *byte == mark) {
        pieces.push(Bytes::copy(alloc, piece)?)?;
    }
    Ok(pieces)
}

/// The items of a given word between these bytes; the empty word has none.
pub fn items(alloc: Global, word: &[u8], mark: u8) -> Result<Seq<Bytes>, NoMemory> {
    if word.is_empty() {
        return Ok(Seq::new(alloc));
    }
    pieces(alloc, word, mark)
}

/// The text before the first such byte, and what stands after it.
pub fn halves(text: &[u8], mark: u8) -> (&[u8], Option<&[u8]>) {
    match text.iter().position(|byte| *byte == mark) {
        Some(at) => (text.split_at(at).0, Some(text.split_at(at + 1).1)),
        None => (text, None),
    }
}

/// The word at a place, or `-` where there are fewer.
pub fn word_at(words: &[Bytes], at: usize) -> &[u8] {
    match words.get(at) {
        Some(word) => word.as_slice(),
        None => b"-",
    }
}
