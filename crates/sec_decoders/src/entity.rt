ghost use Rattle.std.specs.Prelude.{◌≡◌, ◌<◌, ◌≤◌, ◌+◌, ◌^◌, ◌∷◌, [], map, take, drop, length, IfOk, IfSome};
ghost use Rattle.std.specs.Option.{option_map};
ghost use Rattle.std.specs.List.{take_while};
ghost use Rattle.std.specs.Char.{to_ascii_lowercase};
ghost use Rattle.std.specs.Str.{bytes_eq};
ghost use Rattle.sec_decoders.specs.Digits.{is_hex, is_decimal};
ghost use Rattle.sec_decoders.specs.Pieces.{pieces};
ghost use Rattle.sec_decoders.specs.declared.pieces.TheConstants.{LIMIT};
ghost use Rattle.sec_decoders.specs.Entities.{semicolon, hex_entity, hex_numbered, decimal_entity, decimal_numbered, named, name_entity, entities};
ghost use Rattle.sec_decoders.specs.declared.lengths.TheConstants.{DECIMAL_REFERENCE, HEX_REFERENCE};

use crate::characters::{
    AMPERSAND, CAPITAL_X, GREATER_THAN, HASH, LESS_THAN, NO_BREAK_SPACE, QUOTE, SEMICOLON, SMALL_X,
};
use crate::digits::{DECIMAL, HEXADECIMAL, is_hex, low_byte};
use crate::lengths::{DECIMAL_REFERENCE, HEX_REFERENCE};
use crate::plain::len_before;
use crate::{Decoder, Piece, decode};
use std::alloc::Global;
use waf_plain::{Bytes, NoMemory};

/// `htmlEntityDecode` of the ModSecurity reference manual: numbers in hexadecimal and decimal, of
/// which the low byte is taken, and five names. The `;` may be missing.
pub fn html_entity_decode(alloc: Global, value: &[u8]) -> Result<Bytes, NoMemory>
    ensures { IfOk result (λ bytes. bytes ≡ take LIMIT (pieces entities 0 value.now)) }
{
    decode(alloc, &Entities, value)
}

/// The character references of HTML.
struct Entities;

impl Decoder for Entities {
    ghost piece = { entities };

    #[tactic(auto, using(crate::proofs::Kept::entities_kept))]
    fn plain_len(&self, text: &[u8]) -> usize {
        len_before(AMPERSAND, text)
    }

    fn piece(&self, front: &[u8]) -> Piece {
        if let Some((n, takes)) = hex_entity(front) {
            return Piece::byte(n, takes);
        }
        if let Some((n, takes)) = decimal_entity(front) {
            return Piece::byte(n, takes);
        }
        if let Some((n, takes)) = name_entity(front) {
            return Piece::byte(n, takes);
        }
        Piece::byte(front[0], 1)
    }
}

/// `&#x` and hexadecimal digits.
fn hex_entity(front: &[u8]) -> Option<(u8, usize)>
    ensures row { hex_entity front.now ≡ option_map (λ p. (p.0 ∷ [], p.1)) result }
    ensures there { IfSome result (λ p. (0 < p.1) × (p.1 ≤ length front.now)) }
{
    match front {
        [AMPERSAND, HASH, SMALL_X | CAPITAL_X, ..] => hex_numbered(front.split_at(HEX_REFERENCE).1),
        _ => None,
    }
}

fn hex_numbered(text: &[u8]) -> Option<(u8, usize)>
    requires { length text.now + HEX_REFERENCE < 2 ^ 63 }
    ensures row { hex_numbered text.now ≡ option_map (λ p. (p.0 ∷ [], p.1)) result }
    ensures there { IfSome result (λ p. (0 < p.1) × (p.1 ≤ length text.now + HEX_REFERENCE)) }
{
    let (digits, rest) = text.split_at(hex_len(text));
    if digits.is_empty() {
        return None;
    }
    Some((
        low_byte(HEXADECIMAL, digits),
        HEX_REFERENCE + digits.len() + semicolon(rest),
    ))
}

fn hex_len(text: &[u8]) -> usize
    ensures count { result ≡ length (take_while is_hex text.now) }
    ensures within { result ≤ length text.now }
{
    text.iter().take_while(|c| is_hex(**c)).count()
}

/// `&#` and decimal digits.
fn decimal_entity(front: &[u8]) -> Option<(u8, usize)>
    ensures row { decimal_entity front.now ≡ option_map (λ p. (p.0 ∷ [], p.1)) result }
    ensures there { IfSome result (λ p. (0 < p.1) × (p.1 ≤ length front.now)) }
{
    match front {
        [AMPERSAND, HASH, ..] => decimal_numbered(front.split_at(DECIMAL_REFERENCE).1),
        _ => None,
    }
}

fn decimal_numbered(text: &[u8]) -> Option<(u8, usize)>
    requires { length text.now + DECIMAL_REFERENCE < 2 ^ 63 }
    ensures row { decimal_numbered text.now ≡ option_map (λ p. (p.0 ∷ [], p.1)) result }
    ensures there { IfSome result (λ p. (0 < p.1) × (p.1 ≤ length text.now + DECIMAL_REFERENCE)) }
{
    let (digits, rest) = text.split_at(decimal_len(text));
    if digits.is_empty() {
        return None;
    }
    Some((
        low_byte(DECIMAL, digits),
        DECIMAL_REFERENCE + digits.len() + semicolon(rest),
    ))
}

fn decimal_len(text: &[u8]) -> usize
    ensures count { result ≡ length (take_while is_decimal text.now) }
    ensures within { result ≤ length text.now }
{
    text.iter().take_while(|c| is_decimal(**c)).count()
}

fn is_decimal(byte: u8) -> bool
    ensures { result ≡ is_decimal byte }
{
    byte.is_ascii_digit()
}

/// One of the names that are read.
fn name_entity(front: &[u8]) -> Option<(u8, usize)>
    ensures row { name_entity front.now ≡ option_map (λ p. (p.0 ∷ [], p.1)) result }
    ensures there { IfSome result (λ p. (0 < p.1) × (p.1 ≤ length front.now)) }
{
    if let Some(row) = named(front, b"&quot", QUOTE) {
        return Some(row);
    }
    if let Some(row) = named(front, b"&amp", AMPERSAND) {
        return Some(row);
    }
    if let Some(row) = named(front, b"&lt", LESS_THAN) {
        return Some(row);
    }
    if let Some(row) = named(front, b"&gt", GREATER_THAN) {
        return Some(row);
    }
    named(front, b"&nbsp", NO_BREAK_SPACE)
}

/// A word at the front, without regard to case.
fn named(front: &[u8], word: &[u8], byte: u8) -> Option<(u8, usize)>
    requires { 0 < length word.now }
    ensures row { named word.now byte front.now ≡ option_map (λ p. (p.0 ∷ [], p.1)) result }
    ensures there { IfSome result (λ p. (0 < p.1) × (p.1 ≤ length front.now)) }
{
    if front.len() < word.len() {
        return None;
    }
    if !begins(front, word) {
        return None;
    }
    Some((byte, word.len() + semicolon(front.split_at(word.len()).1)))
}

fn begins(front: &[u8], word: &[u8]) -> bool
    requires { length word.now ≤ length front.now }
    ensures { result ≡ bytes_eq (map to_ascii_lowercase (take (length word.now) front.now))
        (map to_ascii_lowercase word.now) }
{
    front.split_at(word.len()).0.eq_ignore_ascii_case(word)
}

/// One semicolon at the front.
fn semicolon(text: &[u8]) -> usize
    ensures count { result ≡ semicolon text.now }
    ensures within { result ≤ length text.now }
{
    match text {
        [SEMICOLON, ..] => 1,
        _ => 0,
    }
}
