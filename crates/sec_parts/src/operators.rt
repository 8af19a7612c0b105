ghost use Rattle.std.specs.Prelude.{◌≡◌, ◌∷◌, ◌≤◌, [], length, take, drop, IfOk, Ok, true, false};
ghost use Rattle.std.specs.List.{position_or_len};
ghost use Rattle.sec_text.specs.Quotes.{is_blank};
ghost use Rattle.sec_parts.specs.Results.{Gives, IsBad};
ghost use Rattle.sec_parts.specs.declared.faults.Flaw.TheVariants as flaws;
ghost use Rattle.sec_parts.specs.Operators.{behind_at, expanded, from_file, is_refused_operator, literal, named, of_kind, operator_of, reads_address_file, reads_phrase_file, stated, unless_negated, with_argument, with_text, with_words, without_argument};

use crate::faults::{Flaw, Refusal, bad_word, with_word};
use crate::macros::read_macro;
use crate::phrases::{count_to_blank, read_addresses, read_phrases, read_ranges};
use crate::texts::trim_front;
use sec_ast::{Macro, Op, OpKind, Part, is_among};
use sec_text::characters::{AT_SIGN, EXCLAMATION_MARK};
use std::alloc::Global;
use waf_plain::{Bytes, NoMemory, Seq};

/// The operator of a rule. Where its words stand in a file, `file` is the name of that, as it is
/// written, and `op` has no words yet.
#[derive(Debug, PartialEq, Drop)]
pub struct Operator {
    pub negated: bool,
    pub op: Op,
    pub file: Option<Bytes>,
}

const REFUSED: [&[u8]; 15] = [
    b"detectSQLi",
    b"detectXSS",
    b"geoLookup",
    b"rbl",
    b"inspectFile",
    b"fuzzyHash",
    b"verifyCC",
    b"verifyCPF",
    b"verifySSN",
    b"rsub",
    b"restpath",
    b"validateSchema",
    b"validateNid",
    b"containsWord",
    b"strmatch",
];

const PHRASE_FILE_NAMES: [&[u8]; 2] = [b"pmFromFile", b"pmf"];

const ADDRESS_FILE_NAMES: [&[u8]; 2] = [b"ipMatchFromFile", b"ipMatchF"];

#[tactic(auto, unfolding(crate::specs::Operators::is_refused_operator))]
fn is_refused(name: &[u8]) -> bool
    ensures { result ≡ is_refused_operator name.now }
{
    is_among(name, &REFUSED)
}

#[tactic(auto, unfolding(crate::specs::Operators::reads_phrase_file))]
fn is_of_phrase_file(name: &[u8]) -> bool
    ensures { result ≡ reads_phrase_file name.now }
{
    is_among(name, &PHRASE_FILE_NAMES)
}

#[tactic(auto, unfolding(crate::specs::Operators::reads_address_file))]
fn is_of_address_file(name: &[u8]) -> bool
    ensures { result ≡ reads_address_file name.now }
{
    is_among(name, &ADDRESS_FILE_NAMES)
}

// A fault whose word is a name with `@` before it.
fn at_name(alloc: Global, flaw: Flaw, name: &[u8]) -> Refusal
    ensures { IsBad result flaw (AT_SIGN ∷ name.now) }
{
    match with_at(alloc, name) {
        Ok(word) => with_word(alloc, flaw, word.as_slice()),
        Err(_) => Refusal::NoMemory,
    }
}

fn with_at(alloc: Global, name: &[u8]) -> Result<Bytes, NoMemory>
    ensures { IfOk result (λ word. word ≡ AT_SIGN ∷ name.now) }
{
    let mut word = Bytes::copy(alloc, &[AT_SIGN])?;
    word.append(name)?;
    Ok(word)
}

fn of_text(alloc: Global, negated: bool, kind: OpKind, text: Macro) -> Operator
    ensures { result ≡ with_text negated kind text }
{
    Operator {
        negated,
        op: Op {
            kind,
            text,
            words: Seq::new(alloc),
        },
        file: None,
    }
}

fn of_words(alloc: Global, negated: bool, kind: OpKind, words: Seq<Bytes>) -> Operator
    ensures { result ≡ with_words negated kind words }
{
    Operator {
        negated,
        op: Op {
            kind,
            text: Seq::new(alloc),
            words,
        },
        file: None,
    }
}

fn of_file(alloc: Global, negated: bool, kind: OpKind, name: &[u8]) -> Result<Operator, NoMemory>
    ensures { IfOk result (λ o. o ≡ from_file negated kind name.now) }
{
    Ok(Operator {
        negated,
        op: Op {
            kind,
            text: Seq::new(alloc),
            words: Seq::new(alloc),
        },
        file: Some(Bytes::copy(alloc, name)?),
    })
}

fn literal_text(alloc: Global, argument: &[u8]) -> Result<Macro, NoMemory>
    ensures { IfOk result (λ text. text ≡ literal argument.now) }
{
    let mut text = Seq::new(alloc);
    if argument.is_empty() {
        return Ok(text);
    }
    text.push(Part::Text(Bytes::copy(alloc, argument)?))?;
    Ok(text)
}

fn read_expanded(
    alloc: Global,
    negated: bool,
    kind: OpKind,
    argument: &[u8],
) -> Result<Operator, Refusal>
    ensures { Gives (λ o. o) result (expanded negated kind argument.now) }
{
    let text = read_macro(alloc, argument)?;
    Ok(of_text(alloc, negated, kind, text))
}

fn read_without(
    alloc: Global,
    negated: bool,
    kind: OpKind,
    argument: &[u8],
) -> Result<Operator, Refusal>
    ensures { Gives (λ o. o) result (without_argument negated kind argument.now) }
{
    match argument {
        [] => Ok(of_text(alloc, negated, kind, Seq::new(alloc))),
        _ => Err(bad_word(alloc, argument)),
    }
}

fn read_literal(
    alloc: Global,
    negated: bool,
    kind: OpKind,
    argument: &[u8],
) -> Result<Operator, Refusal>
    ensures { Gives (λ o. o) result (Ok (with_text negated kind (literal argument.now))) }
{
    let text = literal_text(alloc, argument)?;
    Ok(of_text(alloc, negated, kind, text))
}

fn read_pm(alloc: Global, negated: bool, argument: &[u8]) -> Result<Operator, Refusal>
    ensures { Gives (λ o. o) result (with_argument negated argument.now OpKind.Pm) }
{
    let words = read_phrases(alloc, argument)?;
    Ok(of_words(alloc, negated, OpKind::Pm, words))
}

fn read_ip_match(alloc: Global, negated: bool, argument: &[u8]) -> Result<Operator, Refusal>
    ensures { Gives (λ o. o) result (with_argument negated argument.now OpKind.IpMatch) }
{
    let words = read_addresses(alloc, argument)?;
    Ok(of_words(alloc, negated, OpKind::IpMatch, words))
}

fn read_byte_range(alloc: Global, negated: bool, argument: &[u8]) -> Result<Operator, Refusal>
    ensures { Gives (λ o. o) result (with_argument negated argument.now OpKind.ValidateByteRange) }
{
    let words = read_ranges(alloc, argument)?;
    Ok(of_words(alloc, negated, OpKind::ValidateByteRange, words))
}

// The argument of a kind, in the form that it takes.
fn read_argument(
    alloc: Global,
    negated: bool,
    argument: &[u8],
    kind: OpKind,
) -> Result<Operator, Refusal>
    ensures { Gives (λ o. o) result (with_argument negated argument.now kind) }
{
    match kind {
        OpKind::Rx => read_literal(alloc, negated, kind, argument),
        OpKind::RxBytes => read_literal(alloc, negated, kind, argument),
        OpKind::Pm => read_pm(alloc, negated, argument),
        OpKind::IpMatch => read_ip_match(alloc, negated, argument),
        OpKind::ValidateByteRange => read_byte_range(alloc, negated, argument),
        OpKind::ValidateUrlEncoding => read_without(alloc, negated, kind, argument),
        OpKind::ValidateUtf8Encoding => read_without(alloc, negated, kind, argument),
        OpKind::UnconditionalMatch => read_without(alloc, negated, kind, argument),
        OpKind::NoMatch => read_without(alloc, negated, kind, argument),
        OpKind::Streq => read_expanded(alloc, negated, kind, argument),
        OpKind::Contains => read_expanded(alloc, negated, kind, argument),
        OpKind::BeginsWith => read_expanded(alloc, negated, kind, argument),
        OpKind::EndsWith => read_expanded(alloc, negated, kind, argument),
        OpKind::Within => read_expanded(alloc, negated, kind, argument),
        OpKind::Eq => read_expanded(alloc, negated, kind, argument),
        OpKind::Ge => read_expanded(alloc, negated, kind, argument),
        OpKind::Gt => read_expanded(alloc, negated, kind, argument),
        OpKind::Le => read_expanded(alloc, negated, kind, argument),
        OpKind::Lt => read_expanded(alloc, negated, kind, argument),
    }
}

fn read_named(
    alloc: Global,
    negated: bool,
    name: &[u8],
    argument: &[u8],
) -> Result<Operator, Refusal>
    ensures { Gives (λ o. o) result (named negated name.now argument.now) }
{
    if is_refused(name) {
        return Err(at_name(alloc, Flaw::RefusedByName, name));
    }
    if is_of_phrase_file(name) {
        return Ok(of_file(alloc, negated, OpKind::Pm, argument)?);
    }
    if is_of_address_file(name) {
        return Ok(of_file(alloc, negated, OpKind::IpMatch, argument)?);
    }
    match OpKind::named(name) {
        Some(kind) => read_argument(alloc, negated, argument, kind),
        None => Err(at_name(alloc, Flaw::BadWord, name)),
    }
}

fn read_behind_at(alloc: Global, negated: bool, text: &[u8]) -> Result<Operator, Refusal>
    ensures { Gives (λ o. o) result (behind_at negated text.now) }
{
    let (name, rest) = text.split_at(count_to_blank(text));
    read_named(alloc, negated, name, trim_front(rest))
}

fn read_stated(alloc: Global, negated: bool, text: &[u8]) -> Result<Operator, Refusal>
    ensures { Gives (λ o. o) result (stated negated text.now) }
{
    match text {
        [AT_SIGN, rest @ ..] => read_behind_at(alloc, negated, rest),
        _ => read_argument(alloc, negated, text, OpKind::Rx),
    }
}

/// The operator that a word states: `!` or not, `@` and a name, and its argument, or the argument of
/// `rx` alone. A name that is left out is `RefusedByName` and one that is unknown `BadWord`, both
/// with `@` and the name; a phrase or range outside its form is `BadWord` with that, an argument
/// where none is taken `BadWord` with all of it, and a macro has its own faults. Addresses are not
/// looked at, nor is a file opened.
#[tactic(auto, unfolding(crate::specs::Operators::operator_of))]
pub fn read_operator(alloc: Global, word: &[u8]) -> Result<Operator, Refusal>
    ensures { Gives (λ o. o) result (operator_of word.now) }
{
    let text = trim_front(word);
    match text {
        [EXCLAMATION_MARK, rest @ ..] => read_stated(alloc, true, trim_front(rest)),
        _ => read_stated(alloc, false, text),
    }
}
