ghost use Rattle.std.specs.Prelude.{◌≡◌, ◌≤◌, ◌<◌, ◌+◌, ◌-◌, ◌==◌, length, take, drop, IfOk, IfSome, true, false, option_copied, List, Result, ℕ, Some, None};
ghost use Rattle.std.specs.Option.{option_map};
ghost use Rattle.sec_text.specs.Readers.{ReadsAll};
ghost use Rattle.sec_parts.specs.declared.faults.Bad.{Bad};
ghost use Rattle.sec_parts.specs.Results.{Gives};
ghost use Rattle.sec_parts.specs.Texts.{to_byte};
ghost use Rattle.sec_parts.specs.Macros.{EndsAfterLast, begins_reference, keyed, macro_of, opens, part_at, reference, reference_at, text_len};

use crate::faults::{Refusal, bad_word, refused_name};
use crate::texts::count_to;
use crate::variables::is_refused_variable;
use sec_ast::{Macro, Part, Var};
use sec_text::characters::{CLOSING_BRACE, DOT, OPENING_BRACE, PERCENT};
use std::alloc::Global;
use waf_plain::{Bytes, Seq};

// How many bytes `%{` has, which a reference begins with.
const OPENING_LENGTH: usize = 2;

// How many bytes stand behind the last brace that closes, or all where there is none.
fn count_after_last_close(text: &[u8]) -> usize
    ensures tail { EndsAfterLast result text.now }
    ensures within { result ≤ length text.now }
{
    let mut count = 0;
    while count < text.len() && text[text.len() - count - 1] != CLOSING_BRACE {
        count += 1;
    }
    count
}

fn has_open(text: &[u8]) -> bool
    ensures { result ≡ opens text.now }
{
    match text {
        [PERCENT, OPENING_BRACE, ..] => true,
        _ => false,
    }
}

// A reference begins here; `tail` bytes of the macro stand behind its last brace.
fn is_reference(text: &[u8], tail: usize) -> bool
    requires { EndsAfterLast tail text.now }
    ensures { result ≡ begins_reference text.now }
{
    has_open(text) && tail < text.len()
}

// How many bytes of text stand before the next reference.
#[tactic(auto, using(crate::proofs::MacroLaws::text_more))]
fn count_text(text: &[u8], tail: usize) -> usize
    requires { EndsAfterLast tail text.now }
    ensures count { result ≡ text_len text.now }
    ensures within { result ≤ length text.now }
{
    let mut count = 0;
    while count < text.len() && !is_reference(text.split_at(count).1, tail) {
        count += 1;
    }
    count
}

fn read_key(alloc: Global, whole: &[u8], var: Var, rest: &[u8]) -> Result<Part, Refusal>
    ensures { Gives (λ p. p) result (keyed whole.now var rest.now) }
{
    match rest {
        [] => Ok(Part::Ref(var, None)),
        [_] => Err(bad_word(alloc, whole)),
        [_, key @ ..] => {
            if !var.is_collection() {
                return Err(bad_word(alloc, whole));
            }
            Ok(Part::Ref(var, Some(Bytes::copy(alloc, key)?)))
        }
    }
}

// What stands between the braces of `whole`.
fn read_reference(alloc: Global, whole: &[u8], inside: &[u8]) -> Result<Part, Refusal>
    ensures { Gives (λ p. p) result (reference whole.now inside.now) }
{
    let (name, rest) = inside.split_at(count_to(inside, DOT));
    if is_refused_variable(name) {
        return Err(refused_name(alloc, whole));
    }
    match Var::named(name) {
        Some(var) => read_key(alloc, whole, var, rest),
        None => Err(bad_word(alloc, whole)),
    }
}

#[tactic(auto, using(crate::proofs::MacroLaws::long_within, crate::proofs::MacroLaws::long_behind))]
fn find_close(text: &[u8]) -> usize
    requires { begins_reference text.now ≡ true }
    ensures close { result ≡ to_byte CLOSING_BRACE text.now }
    ensures within { result < length text.now }
    ensures behind { OPENING_LENGTH ≤ result }
{
    count_to(text, CLOSING_BRACE)
}

// The reference at the front, and what follows.
fn read_front_reference(alloc: Global, text: &[u8], tail: usize) -> Result<(Part, &[u8]), Refusal>
    requires begins { begins_reference text.now ≡ true }
    requires tail { EndsAfterLast tail text.now }
    ensures part { Gives (λ x. Some (x.0, x.1.now)) result (reference_at text.now) }
    ensures shorter { IfOk result (λ x. length (x.1).now < length text.now) }
    ensures rest { IfOk result (λ x. EndsAfterLast tail (x.1).now) }
{
    let close = find_close(text);
    let (whole, rest) = text.split_at(close + 1);
    let inside = text
        .split_at(OPENING_LENGTH)
        .1
        .split_at(close - OPENING_LENGTH)
        .0;
    let part = read_reference(alloc, whole, inside)?;
    Ok((part, rest))
}

#[tactic(auto, using(crate::proofs::MacroLaws::some_text))]
fn find_text(text: &[u8], tail: usize) -> usize
    requires some { 0 < length text.now }
    requires no_reference { begins_reference text.now ≡ false }
    requires tail { EndsAfterLast tail text.now }
    ensures len { result ≡ text_len text.now }
    ensures within { result ≤ length text.now }
    ensures more { 0 < result }
{
    count_text(text, tail)
}

#[tactic(auto, unfolding(crate::specs::Macros::part_at))]
fn read_part(alloc: Global, text: &[u8], tail: usize) -> Result<Option<(Part, &[u8])>, Refusal>
    requires { EndsAfterLast tail text.now }
    ensures part { Gives (λ read. option_map (λ x. (x.0, x.1.now)) read) result (part_at text.now) }
    ensures shorter { IfOk result (λ read. IfSome read (λ x. length (x.1).now < length text.now)) }
    ensures rest { IfOk result (λ read. IfSome read (λ x. EndsAfterLast tail (x.1).now)) }
{
    if text.is_empty() {
        return Ok(None);
    }
    if is_reference(text, tail) {
        let (part, rest) = read_front_reference(alloc, text, tail)?;
        return Ok(Some((part, rest)));
    }
    let (front, rest) = text.split_at(find_text(text, tail));
    Ok(Some((Part::Text(Bytes::copy(alloc, front)?), rest)))
}

/// The parts of a macro: `%{` up to the next `}` is a reference to a variable, all else is text.
/// A reference to a variable that is left out is `RefusedByName`, any other outside its form
/// `BadWord`, both with the reference. It takes time linear in the text.
pub fn read_macro(alloc: Global, text: &[u8]) -> Result<Macro, Refusal>
    ensures { Gives (λ parts. parts) result (macro_of text.now) }
{
    let tail = count_after_last_close(text);
    let mut parts = Seq::new(alloc);
    let mut rest = text;
    loop {
        let Some((part, after)) = read_part(alloc, rest, tail)? else {
            return Ok(parts);
        };
        parts.push(part)?;
        rest = after;
    }
}

/// A text has one reading as a macro: its parts up to its end, or its first fault.
pub fn one_reading_of_a_macro()
    ensures is { (text : List ℕ) → ReadsAll part_at text (macro_of text) }
    ensures only { (text : List ℕ) (answer : Result (List Part) Bad) → ReadsAll part_at text answer
        → answer ≡ macro_of text }
{}
