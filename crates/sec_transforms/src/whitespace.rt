ghost use Rattle.std.specs.Prelude.{◌≡◌, ◌≤◌, [], ◌∷◌, List, ℕ, IsTrue, length, take, filter, not, IfOk};
ghost use Rattle.std.specs.List.{take_while};
ghost use Rattle.sec_decoders.specs.Pieces.{KeepsFront, pieces};
ghost use Rattle.sec_decoders.specs.declared.pieces.TheConstants.{LIMIT};
ghost use Rattle.sec_transforms.specs.Whitespace.{is_white, is_wide, run, trimmed_left, trimmed_right};

use crate::absence::{LONG, lacks, lacks_bytes};
use crate::limit::cut;
use sec_decoders::characters::{
    CARRIAGE_RETURN, FORM_FEED, LINE_FEED, NO_BREAK_SPACE, SPACE, TAB, VERTICAL_TAB,
};
use sec_decoders::{Decoder, Piece, decode};
use std::alloc::Global;
use waf_plain::{Bytes, NoMemory};

/// `compressWhitespace`.
pub(crate) fn compress_whitespace(alloc: Global, value: &[u8]) -> Result<Bytes, NoMemory>
    ensures { IfOk result (λ bytes. bytes ≡ take LIMIT (pieces run 0 value.now)) }
{
    if is_tidy(value) {
        return copy_of(alloc, value);
    }
    decode(alloc, &Runs, value)
}

/// Whether a value is long, and all its wide whitespace is single spaces.
fn is_tidy(text: &[u8]) -> bool
    ensures { IsTrue result → pieces run 0 text.now ≡ text.now }
{
    if text.len() < LONG {
        return false;
    }
    if !lacks_bytes(text, TAB, LINE_FEED, CARRIAGE_RETURN) {
        return false;
    }
    if !lacks_bytes(text, VERTICAL_TAB, FORM_FEED, NO_BREAK_SPACE) {
        return false;
    }
    lacks(text, b"  ")
}

/// Runs of wide whitespace.
struct Runs;

impl Decoder for Runs {
    ghost piece = { run };

    fn plain_len(&self, text: &[u8]) -> usize {
        spaced_len(text)
    }

    fn piece(&self, front: &[u8]) -> Piece {
        match front.split_first() {
            Some((first, rest)) if is_wide(*first) => Piece::byte(SPACE, 1 + run_len(rest)),
            _ => Piece::byte(front[0], 1),
        }
    }
}

/// How many bytes at the front are not wide whitespace, or single spaces.
fn spaced_len(text: &[u8]) -> usize
    ensures within { result ≤ length text.now }
    ensures kept { KeepsFront run result text.now }
{
    let mut count = 0;
    while stands(text.split_at(count).1) {
        count += 1;
    }
    count
}

/// Whether a byte at the front stands for itself.
fn stands(front: &[u8]) -> bool
    ensures { IsTrue result → (b : ℕ) × (rest : List ℕ) × (front.now ≡ b ∷ rest) × (run front.now ≡ (b ∷ [], 1)) }
{
    match front {
        [SPACE, b, ..] => !is_wide(*b),
        [SPACE] => true,
        [b, ..] => !is_wide(*b),
        [] => false,
    }
}

fn run_len(text: &[u8]) -> usize
    ensures count { result ≡ length (take_while is_wide text.now) }
    ensures within { result ≤ length text.now }
{
    text.iter().take_while(|c| is_wide(**c)).count()
}

/// `removeWhitespace`.
pub(crate) fn remove_whitespace(alloc: Global, value: &[u8]) -> Result<Bytes, NoMemory>
    ensures { IfOk result (λ bytes. bytes ≡ take LIMIT (filter (λ c. not (is_wide c)) value.now)) }
{
    Ok(cut(without_wide(alloc, value)?))
}

fn without_wide(alloc: Global, value: &[u8]) -> Result<Bytes, NoMemory>
    ensures { IfOk result (λ bytes. bytes ≡ filter (λ c. not (is_wide c)) value.now) }
{
    let mut kept = Vec::from_slice(alloc, value)?;
    kept.retain(|byte| !is_wide(*byte));
    Ok(Bytes::from_vec(kept))
}

/// `trim`.
pub(crate) fn trim(alloc: Global, value: &[u8]) -> Result<Bytes, NoMemory>
    ensures { IfOk result (λ bytes. bytes ≡ take LIMIT (trimmed_right (trimmed_left value.now))) }
{
    copy_of(alloc, before_whitespace(behind_whitespace(value)))
}

/// `trimLeft`.
pub(crate) fn trim_left(alloc: Global, value: &[u8]) -> Result<Bytes, NoMemory>
    ensures { IfOk result (λ bytes. bytes ≡ take LIMIT (trimmed_left value.now)) }
{
    copy_of(alloc, behind_whitespace(value))
}

/// `trimRight`.
pub(crate) fn trim_right(alloc: Global, value: &[u8]) -> Result<Bytes, NoMemory>
    ensures { IfOk result (λ bytes. bytes ≡ take LIMIT (trimmed_right value.now)) }
{
    copy_of(alloc, before_whitespace(value))
}

fn copy_of(alloc: Global, value: &[u8]) -> Result<Bytes, NoMemory>
    ensures { IfOk result (λ bytes. bytes ≡ take LIMIT value.now) }
{
    Ok(cut(Bytes::copy(alloc, value)?))
}

fn behind_whitespace(text: &[u8]) -> &[u8]
    ensures { result.now ≡ trimmed_left text.now }
{
    for (index, byte) in text.iter().enumerate() {
        if !is_white(*byte) {
            return text.split_at(index).1;
        }
    }
    &[]
}

fn before_whitespace(text: &[u8]) -> &[u8]
    ensures { result.now ≡ trimmed_right text.now }
{
    let mut kept = text;
    while let Some((last, front)) = kept.split_last() {
        if !is_white(*last) {
            return kept;
        }
        kept = front;
    }
    kept
}

fn is_white(byte: u8) -> bool
    ensures { result ≡ is_white byte }
{
    matches!(byte, TAB..=CARRIAGE_RETURN | SPACE)
}

fn is_wide(byte: u8) -> bool
    ensures { result ≡ is_wide byte }
{
    matches!(byte, TAB..=CARRIAGE_RETURN | SPACE | NO_BREAK_SPACE)
}
