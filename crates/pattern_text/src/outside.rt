ghost use Rattle.std.specs.Prelude.{◌≡◌, ◌+◌, ◌<◌, ◌≤◌, IfSome, drop, length};
ghost use Rattle.pattern_text.specs.Texts.{is_among};
ghost use Rattle.pattern_text.specs.Outside.{bounds, braces, escape, flag_count, group, outside, plain, repetition, upper_bound};
ghost use Rattle.pattern_text.specs.Written.{Fits, IsToken, word_of};

use crate::characters::{CLOSING_BRACE, OPENING_BRACE};
use crate::escapes::escaped;
use crate::fronts::{after, begins_among, digit_count};
use crate::place::{Place, Set};
use crate::token::{Token, Wording};

/// The token at the front of a text outside of classes.
#[tactic(auto, unfolding(crate::specs::Outside::outside))]
pub(crate) fn outside(text: &[u8]) -> Option<Token>
    ensures token { IsToken text.now result (outside text.now) }
    ensures fits { Fits text.now result }
{
    if text.starts_with(b"\\") {
        return escape(text);
    }
    if text.starts_with(b"[^") {
        return Some(Token::kept(2, Place::Opened));
    }
    if text.starts_with(b"[") {
        return Some(Token::kept(1, Place::Opened));
    }
    if text.starts_with(b"(?") {
        return group(text);
    }
    if begins_among(b"*+?", text) {
        return repetition(1, text);
    }
    if text.starts_with(b"{") {
        return braces(text);
    }
    if text.starts_with(b"}") {
        return Some(byte(CLOSING_BRACE, 1));
    }
    plain(text)
}

fn byte(byte: u8, takes: usize) -> Token
    ensures { result ≡ record { wording = Wording.Byte byte; takes = takes; next = Place.Outside } }
{
    Token {
        wording: Wording::Byte(byte),
        takes,
        next: Place::Outside,
    }
}

/// A byte that has no rule of its own.
fn plain(text: &[u8]) -> Option<Token>
    ensures token { IsToken text.now result (plain text.now) }
    ensures fits { Fits text.now result }
{
    match text {
        [] => None,
        [0..128, ..] => Some(Token::kept(1, Place::Outside)),
        [c, ..] => Some(byte(*c, 1)),
    }
}

fn short(wording: Wording) -> Token
    ensures { result ≡ record { wording = wording; takes = 2; next = Place.Outside } }
{
    Token {
        wording,
        takes: 2,
        next: Place::Outside,
    }
}

#[tactic(auto, unfolding(crate::specs::Outside::escape))]
fn escape(text: &[u8]) -> Option<Token>
    requires { 1 ≤ length text.now }
    ensures token { IsToken text.now result (escape text.now) }
    ensures fits { Fits text.now result }
{
    if begins_among(b"dDwWsSbBAz", after(1, text)) {
        return Some(Token::kept(2, Place::Outside));
    }
    if text.starts_with(b"\\h") {
        return Some(short(Wording::Class(Set::Blanks)));
    }
    if text.starts_with(b"\\v") {
        return Some(short(Wording::Class(Set::VerticalSpaces)));
    }
    if text.starts_with(b"\\R") {
        return Some(short(Wording::LineEnd));
    }
    let (value, takes) = escaped(after(1, text))?;
    Some(byte(value, 1 + takes))
}

fn flag_count(text: &[u8]) -> usize
    ensures count { result ≡ flag_count text.now }
    ensures within { 2 + result ≤ length text.now + 2 }
{
    after(2, text)
        .iter()
        .take_while(|c| b"imsU-".contains(*c))
        .count()
}

/// A group that begins with `(?`.
#[tactic(auto, unfolding(crate::specs::Outside::group))]
fn group(text: &[u8]) -> Option<Token>
    ensures token { IsToken text.now result (group text.now) }
    ensures fits { Fits text.now result }
{
    let head = 2 + flag_count(text);
    if begins_among(b":)", after(head, text)) {
        return Some(Token::kept(head, Place::Outside));
    }
    if text.starts_with(b"(?P<") {
        return Some(Token::kept(4, Place::Outside));
    }
    if text.starts_with(b"(?<=") || text.starts_with(b"(?<!") {
        return None;
    }
    if text.starts_with(b"(?<") {
        return Some(Token::kept(3, Place::Outside));
    }
    None
}

/// A repetition of `count` bytes, and the `?` that makes it lazy.
#[tactic(auto, unfolding(crate::specs::Outside::repetition))]
fn repetition(count: usize, text: &[u8]) -> Option<Token>
    requires some { 0 < count }
    requires within { count ≤ length text.now }
    ensures token { IsToken text.now result (repetition count text.now) }
    ensures fits { Fits text.now result }
{
    let rest = after(count, text);
    if rest.starts_with(b"+") {
        return None;
    }
    if rest.starts_with(b"?") {
        return Some(Token::kept(count + 1, Place::Outside));
    }
    Some(Token::kept(count, Place::Outside))
}

/// A brace: a repetition, or a literal.
fn braces(text: &[u8]) -> Option<Token>
    requires { 1 ≤ length text.now }
    ensures token { IsToken text.now result (braces (bounds (drop 1 text.now)) text.now) }
    ensures fits { Fits text.now result }
{
    match bounds(after(1, text)) {
        Some(count) => repetition(1 + count, text),
        None => Some(byte(OPENING_BRACE, 1)),
    }
}

/// How many bytes `n}`, `n,}` or `n,m}` takes.
fn bounds(text: &[u8]) -> Option<usize>
    ensures count { result ≡ bounds text.now }
    ensures within { IfSome result (λ n. n ≤ length text.now) }
{
    let count = digit_count(text);
    if count == 0 {
        return None;
    }
    let more = upper_bound(after(count, text))?;
    Some(count + more)
}

/// How many bytes `}`, `,}` or `,m}` takes.
fn upper_bound(text: &[u8]) -> Option<usize>
    ensures count { result ≡ upper_bound text.now }
    ensures within { IfSome result (λ n. n ≤ length text.now) }
{
    if text.starts_with(b"}") {
        return Some(1);
    }
    let most = after(1, text);
    let count = digit_count(most);
    if text.starts_with(b",") && after(count, most).starts_with(b"}") {
        return Some(2 + count);
    }
    None
}
