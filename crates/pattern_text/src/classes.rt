ghost use Rattle.std.specs.Prelude.{◌≡◌, ◌+◌, ◌<◌, ◌≤◌, nat_eq, IfSome, IsTrue, length, not};
ghost use Rattle.std.specs.List.{prefix_len};
ghost use lib.Pointwise.{pointwise};
ghost use Rattle.pattern_text.specs.Texts.{is_among};
ghost use Rattle.pattern_text.specs.Classes.{begins_posix, in_class, is_class_name, member, opening_length, posix, posix_end, posix_name, range_end, range_or_byte, single};
ghost use Rattle.pattern_text.specs.Written.{Fits, IsToken, word_of};

use crate::characters::BACKSPACE;
use crate::escapes::escaped;
use crate::fronts::{after, begins_among};
use crate::place::{Place, Set};
use crate::token::{Token, Wording};

/// The token at the front of the rest of a class, where it does not close the class.
#[tactic(auto, unfolding(crate::specs::Classes::in_class))]
pub(crate) fn in_class(text: &[u8]) -> Option<Token>
    ensures token { IsToken text.now result (in_class text.now) }
    ensures fits { Fits text.now result }
{
    if begins_posix(text) {
        return posix(text);
    }
    if text.starts_with(b"\\") && begins_among(b"dDwWsS", after(1, text)) {
        return Some(Token::kept(2, Place::Inside));
    }
    if text.starts_with(b"\\h") {
        return Some(members(Set::Blanks));
    }
    if text.starts_with(b"\\v") {
        return Some(members(Set::VerticalSpaces));
    }
    member(text)
}

fn members(set: Set) -> Token
    ensures { result ≡ record { wording = Wording.Members set; takes = 2; next = Place.Inside } }
{
    Token {
        wording: Wording::Members(set),
        takes: 2,
        next: Place::Inside,
    }
}

/// Whether `[:name:]` or `[:^name:]` begins here.
fn begins_posix(text: &[u8]) -> bool
    ensures begins { result ≡ begins_posix text.now }
    ensures within { IsTrue result → posix_end text.now + 2 ≤ length text.now }
{
    text.starts_with(b"[:") && after(posix_end(text), text).starts_with(b":]")
}

fn opening_length(text: &[u8]) -> usize
    ensures { result ≡ opening_length text.now }
{
    if text.starts_with(b"[:^") { 3 } else { 2 }
}

fn posix_name(text: &[u8]) -> &[u8]
    ensures { result.now ≡ posix_name text.now }
{
    let name = after(opening_length(text), text);
    name.split_at(name_length(name)).0
}

fn name_length(text: &[u8]) -> usize
    ensures count { result ≡ prefix_len (λ c. not (is_among ":]" c)) text.now }
    ensures within { result ≤ length text.now }
{
    text.iter().take_while(|c| !b":]".contains(*c)).count()
}

fn posix_end(text: &[u8]) -> usize
    ensures { result ≡ posix_end text.now }
{
    opening_length(text) + posix_name(text).len()
}

fn posix(text: &[u8]) -> Option<Token>
    requires { posix_end text.now + 2 ≤ length text.now }
    ensures token { IsToken text.now result (posix text.now) }
    ensures fits { Fits text.now result }
{
    if !is_class_name(posix_name(text)) {
        return None;
    }
    Some(Token::kept(posix_end(text) + 2, Place::Inside))
}

fn is_word(name: &[u8], word: &[u8]) -> bool
    ensures { result ≡ pointwise nat_eq name.now word.now }
{
    name == word
}

fn is_class_name(name: &[u8]) -> bool
    ensures { result ≡ is_class_name name.now }
{
    is_word(name, b"alnum")
        || is_word(name, b"alpha")
        || is_word(name, b"ascii")
        || is_word(name, b"blank")
        || is_word(name, b"cntrl")
        || is_word(name, b"digit")
        || is_word(name, b"graph")
        || is_word(name, b"lower")
        || is_word(name, b"print")
        || is_word(name, b"punct")
        || is_word(name, b"space")
        || is_word(name, b"upper")
        || is_word(name, b"word")
        || is_word(name, b"xdigit")
}

/// A byte or a range.
#[tactic(auto, unfolding(crate::specs::Classes::member))]
fn member(text: &[u8]) -> Option<Token>
    ensures token { IsToken text.now result (member text.now) }
    ensures fits { Fits text.now result }
{
    let (low, takes) = single(text)?;
    let Some((high, more)) = range_end(after(takes, text)) else {
        return Some(Token {
            wording: Wording::Byte(low),
            takes,
            next: Place::Inside,
        });
    };
    Some(Token {
        wording: Wording::Range(low, high),
        takes: takes + 1 + more,
        next: Place::Inside,
    })
}

/// The byte at the front of a class, and how many bytes write it.
#[tactic(auto, unfolding(crate::specs::Classes::single))]
fn single(text: &[u8]) -> Option<(u8, usize)>
    ensures byte { result ≡ single text.now }
    ensures within { IfSome result (λ e. (0 < e.1) × (e.1 ≤ length text.now)) }
{
    if text.starts_with(b"\\b") {
        return Some((BACKSPACE, 2));
    }
    if text.starts_with(b"\\") {
        let (byte, takes) = escaped(after(1, text))?;
        return Some((byte, 1 + takes));
    }
    match text {
        [] => None,
        [c, ..] => Some((*c, 1)),
    }
}

/// The last byte of a range, and how many bytes after the hyphen write it.
#[tactic(auto, unfolding(crate::specs::Classes::range_end))]
fn range_end(text: &[u8]) -> Option<(u8, usize)>
    ensures byte { result ≡ range_end text.now }
    ensures within { IfSome result (λ e. (0 < e.1) × (1 + e.1 ≤ length text.now)) }
{
    if !text.starts_with(b"-") || text.starts_with(b"-]") {
        return None;
    }
    single(after(1, text))
}
