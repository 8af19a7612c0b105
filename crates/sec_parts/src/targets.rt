ghost use Rattle.std.specs.Prelude.{◌≡◌, ◌≤◌, ◌<◌, ◌-◌, length, slice_index, IfOk, IfSome, option_copied, List, Option, Result, Some, None, ℕ};
ghost use Rattle.sec_text.specs.Readers.{ReadsAll};
ghost use Rattle.sec_parts.specs.declared.faults.Bad.{Bad};
ghost use Rattle.sec_text.specs.Quotes.{is_blank, quoted};
ghost use Rattle.sec_parts.specs.Results.{Gives};
ghost use Rattle.sec_parts.specs.Targets.{behind_name, by_name, by_pattern, by_quote, fits, found, in_quotes, is_xml, marked, name_select, next_target, quoted_name, quoted_pattern, selected, selector, selector_of, target_at, targets_of, unmarked, where_blank};

use crate::faults::{Refusal, bad_word, refused_name};
use crate::texts::{
    after_first, count_to, count_to_either, has_open_end, is_all_blank, piece_of, trim_back,
    trim_blanks, trim_front,
};
use crate::variables::is_refused_variable;
use sec_ast::{Select, Target, Var};
use sec_text::characters::{AMPERSAND, BAR, COLON, EXCLAMATION_MARK, SINGLE_QUOTE, SLASH};
use sec_text::{is_blank_byte, read_quoted};
use std::alloc::Global;
use waf_plain::{Bytes, NoMemory, Seq};

// The mark before a variable's name: `&` counts, `!` takes away.
#[derive(Clone, Copy)]
struct Marks {
    count: bool,
    exclude: bool,
}

fn select_by_name(alloc: Global, name: &[u8]) -> Result<Option<Select>, NoMemory>
    ensures { IfOk result (λ s. s ≡ name_select name.now) }
{
    if name.is_empty() || has_open_end(name) {
        return Ok(None);
    }
    Ok(Some(Select::Name(Bytes::copy(alloc, name)?)))
}

fn read_by_name(alloc: Global, here: &[u8]) -> Result<(Option<Select>, &[u8]), NoMemory>
    ensures read { IfOk result (λ x. (x.0, x.1.now) ≡ by_name here.now) }
    ensures within { IfOk result (λ x. length (x.1).now ≤ length here.now) }
{
    let (name, rest) = here.split_at(count_to(here, BAR));
    let select = select_by_name(alloc, trim_back(name))?;
    Ok((select, rest))
}

// Nothing is selected where anything but blanks stands up to the next bar.
fn unless_followed(select: Option<Select>, after: &[u8]) -> (Option<Select>, &[u8])
    ensures read { (result.0, result.1.now) ≡ where_blank select after.now }
    ensures within { length (result.1).now ≤ length after.now }
{
    let (gap, rest) = after.split_at(count_to(after, BAR));
    if is_all_blank(gap) {
        return (select, rest);
    }
    (None, rest)
}

fn read_by_pattern(alloc: Global, here: &[u8]) -> Result<(Option<Select>, &[u8]), NoMemory>
    ensures read { IfOk result (λ x. (x.0, x.1.now) ≡ by_pattern (quoted SLASH here.now)) }
    ensures within { IfOk result (λ x. length (x.1).now ≤ length here.now) }
{
    match read_quoted(alloc, SLASH, here)? {
        Some((pattern, after)) => Ok(unless_followed(Some(Select::Pattern(pattern)), after)),
        None => Ok((None, here.split_at(here.len()).1)),
    }
}

fn ends_blank(text: &[u8]) -> bool
    ensures { result ≡ is_blank (slice_index text.now (length text.now - 1)) }
{
    match text {
        [] => false,
        [.., last] => is_blank_byte(*last),
    }
}

fn select_by_quoted_name(alloc: Global, text: &[u8]) -> Result<Option<Select>, NoMemory>
    ensures { IfOk result (λ s. s ≡ quoted_name text.now) }
{
    if text.contains(&BAR) || ends_blank(text) {
        return Ok(None);
    }
    select_by_name(alloc, text)
}

// A pattern in single quotes, without its first slash.
fn read_quoted_pattern<'a>(
    alloc: Global,
    text: &[u8],
    after: &'a [u8],
) -> Result<(Option<Select>, &'a [u8]), NoMemory>
    ensures read { IfOk result (λ x. (x.0, x.1.now) ≡ quoted_pattern (quoted SLASH text.now) after.now) }
    ensures within { IfOk result (λ x. length (x.1).now ≤ length after.now) }
{
    match read_quoted(alloc, SLASH, text)? {
        Some((pattern, gap)) => {
            if is_all_blank(gap) {
                return Ok(unless_followed(Some(Select::Pattern(pattern)), after));
            }
            Ok(unless_followed(None, after))
        }
        None => Ok((None, after.split_at(after.len()).1)),
    }
}

fn read_in_quotes<'a>(
    alloc: Global,
    text: &[u8],
    after: &'a [u8],
) -> Result<(Option<Select>, &'a [u8]), NoMemory>
    ensures read { IfOk result (λ x. (x.0, x.1.now) ≡ in_quotes text.now after.now) }
    ensures within { IfOk result (λ x. length (x.1).now ≤ length after.now) }
{
    match text {
        [SLASH, pattern @ ..] => read_quoted_pattern(alloc, pattern, after),
        _ => Ok(unless_followed(select_by_quoted_name(alloc, text)?, after)),
    }
}

fn read_by_quote(alloc: Global, here: &[u8]) -> Result<(Option<Select>, &[u8]), NoMemory>
    ensures read { IfOk result (λ x. (x.0, x.1.now) ≡ by_quote here.now) }
    ensures within { IfOk result (λ x. length (x.1).now ≤ length here.now) }
{
    let (text, rest) = here.split_at(count_to(here, SINGLE_QUOTE));
    match rest {
        [] => Ok((None, rest)),
        [_, after @ ..] => read_in_quotes(alloc, text, after),
    }
}

fn read_selector(alloc: Global, here: &[u8]) -> Result<(Option<Select>, &[u8]), NoMemory>
    ensures read { IfOk result (λ x. (x.0, x.1.now) ≡ selector here.now) }
    ensures within { IfOk result (λ x. length (x.1).now ≤ length here.now) }
{
    match here {
        [SLASH, rest @ ..] => read_by_pattern(alloc, rest),
        [SINGLE_QUOTE, rest @ ..] => read_by_quote(alloc, rest),
        _ => read_by_name(alloc, here),
    }
}

fn is_xml_variable(var: Option<Var>) -> bool
    ensures { result ≡ is_xml var }
{
    match var {
        Some(Var::Xml) => true,
        _ => false,
    }
}

fn read_selector_of(
    alloc: Global,
    var: Option<Var>,
    here: &[u8],
) -> Result<(Option<Select>, &[u8]), NoMemory>
    ensures read { IfOk result (λ x. (x.0, x.1.now) ≡ selector_of var here.now) }
    ensures within { IfOk result (λ x. length (x.1).now ≤ length here.now) }
{
    if is_xml_variable(var) {
        return read_by_name(alloc, here);
    }
    read_selector(alloc, here)
}

fn fits_variable(select: &Select, var: Var) -> bool
    ensures { result ≡ fits select.now var }
{
    match select {
        Select::All => true,
        Select::Name(_) => var.is_collection(),
        Select::Pattern(_) => var.is_collection(),
    }
}

fn select_rows(
    alloc: Global,
    piece: &[u8],
    marks: Marks,
    select: Option<Select>,
    var: Option<Var>,
) -> Result<Target, Refusal>
    ensures { Gives (λ t. t) result (selected piece.now marks select var) }
{
    let Some(var) = var else {
        return Err(bad_word(alloc, piece));
    };
    let Some(select) = select else {
        return Err(bad_word(alloc, piece));
    };
    if !fits_variable(&select, var) {
        return Err(bad_word(alloc, piece));
    }
    Ok(Target {
        count: marks.count,
        exclude: marks.exclude,
        var,
        select,
    })
}

fn read_found<'a>(
    alloc: Global,
    marks: Marks,
    text: &'a [u8],
    name: &[u8],
    var: Option<Var>,
    select: Option<Select>,
    rest: &'a [u8],
) -> Result<(Target, Option<&'a [u8]>), Refusal>
    requires { length rest.now ≤ length text.now }
    ensures target { Gives (λ x.
        (x.0, option_copied x.1)) result (found marks text.now name.now var (select, rest.now)) }
    ensures shorter { IfOk result (λ x. IfSome x.1 (λ after. length after.now < length text.now)) }
{
    let name = trim_blanks(name);
    if is_refused_variable(name) {
        return Err(refused_name(alloc, name));
    }
    let target = select_rows(alloc, piece_of(text, rest), marks, select, var)?;
    Ok((target, after_first(rest)))
}

fn read_unmarked<'a>(
    alloc: Global,
    marks: Marks,
    text: &'a [u8],
    here: &'a [u8],
) -> Result<(Target, Option<&'a [u8]>), Refusal>
    requires { length here.now ≤ length text.now }
    ensures target { Gives (λ x. (x.0, option_copied x.1)) result (unmarked marks text.now here.now) }
    ensures shorter { IfOk result (λ x. IfSome x.1 (λ after. length after.now < length text.now)) }
{
    let (name, rest) = here.split_at(count_to_either(here, BAR, COLON));
    match rest {
        [COLON, behind @ ..] => {
            let var = Var::named(name);
            let (select, rest) = read_selector_of(alloc, var, behind)?;
            read_found(alloc, marks, text, name, var, select, rest)
        }
        _ => {
            let var = Var::named(trim_back(name));
            read_found(alloc, marks, text, name, var, Some(Select::All), rest)
        }
    }
}

// The piece that a text begins with, and what stands behind its bar.
#[tactic(auto, unfolding(crate::specs::Targets::target_at))]
fn read_target(alloc: Global, text: &[u8]) -> Result<(Target, Option<&[u8]>), Refusal>
    ensures target { Gives (λ x. (x.0, option_copied x.1)) result (target_at text.now) }
    ensures shorter { IfOk result (λ x. IfSome x.1 (λ after. length after.now < length text.now)) }
{
    let here = trim_front(text);
    match here {
        [EXCLAMATION_MARK, rest @ ..] => {
            let marks = Marks {
                count: false,
                exclude: true,
            };
            read_unmarked(alloc, marks, text, rest)
        }
        [AMPERSAND, rest @ ..] => {
            let marks = Marks {
                count: true,
                exclude: false,
            };
            read_unmarked(alloc, marks, text, rest)
        }
        _ => {
            let marks = Marks {
                count: false,
                exclude: false,
            };
            read_unmarked(alloc, marks, text, here)
        }
    }
}

/// The targets of a list, parted by `|`: each a variable with `!` or `&` before it or neither, and,
/// for a collection, a name or a `/pattern/` of rows behind a colon. A piece outside this form is
/// `BadWord` with the piece, and the name of a variable that is left out `RefusedByName` with that
/// name.
pub fn read_targets(alloc: Global, text: &[u8]) -> Result<Seq<Target>, Refusal>
    ensures { Gives (λ targets. targets) result (targets_of text.now) }
{
    let mut targets = Seq::new(alloc);
    let mut rest = Some(text);
    while let Some(here) = rest {
        let (target, after) = read_target(alloc, here)?;
        targets.push(target)?;
        rest = after;
    }
    Ok(targets)
}

/// A list of targets has one reading: its targets, or the fault of the first piece that is refused;
/// those before it are good.
pub fn one_reading_of_targets()
    ensures is { (text : List ℕ) → ReadsAll next_target (Some text) (targets_of text) }
    ensures only { (text : List ℕ) (answer : Result (List Target) Bad) → ReadsAll next_target (Some text) answer
        → answer ≡ targets_of text }
{}
