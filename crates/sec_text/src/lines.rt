ghost use Rattle.std.specs.Prelude.{◌≡◌, ◌+◌, ◌<◌, ◌≤◌, ◌^◌, ◌∷◌, ◌++◌, [], List, ℕ, true, false, IfSome, map, length, take, drop, OnOk, IfOk, option_copied, Option, Some, None, MatchOption};
ghost use Rattle.std.specs.List.{position_or_len, slice_split, count_by, AllByRecursion};
ghost use Rattle.sec_text.specs.WrittenLines.{IsWhole, written_lines, numbered};
ghost use Rattle.std.specs.Option.{option_map};
ghost use Rattle.std.specs.Str.{is_utf8};
ghost use Rattle.std.specs.Str.Lossy.{utf8_valid_len};
ghost use Rattle.sec_text.specs.Quotes.{is_blank};
ghost use Rattle.sec_text.specs.Lines.{trim, is_line_feed, goes_on, joined, text_here, is_passed, before, lines_in, logical, first_long, fault_line, AnswersLines};
ghost use Rattle.sec_text.specs.Joining.{made, parts};

use crate::characters::{BACKSLASH, HASH, LINE_FEED};
use crate::faults::TextFault;
use crate::line::Line;
use crate::margins::{Margin, trim_end, trim_start};
use std::alloc::Global;
use waf_plain::{Bytes, NoMemory, Seq};

// How many bytes a logical line has at most.
pub const LINE_LIMIT: usize = 65536;

/// The text without the spaces, tabs and carriage returns at both ends.
pub fn trimmed(text: &[u8]) -> &[u8]
    ensures { result.now ≡ trim text.now }
{
    let text = trim_start(Margin::BlanksAndReturns, text);
    trim_end(Margin::BlanksAndReturns, text)
}

fn ends_open(text: &[u8]) -> bool
    ensures { result ≡ goes_on text.now }
{
    match text {
        [] => false,
        [.., last] => *last == BACKSLASH,
    }
}

/// Whether a trimmed line says nothing: it is empty, or a comment.
pub fn is_passed_over(text: &[u8]) -> bool
    ensures { result ≡ is_passed text.now }
{
    match text {
        [] => true,
        [first, ..] => *first == HASH,
    }
}

// How many bytes stand before the first line feed.
fn count_before_line_feed(text: &[u8]) -> usize
    ensures count { result ≡ position_or_len is_line_feed text.now }
    ensures within { result ≤ length text.now }
{
    let mut count = 0;
    while count < text.len() && text[count] != LINE_FEED {
        count += 1;
    }
    count
}

// The first physical line, and the text behind its line feed.
fn split_line(text: &[u8]) -> (&[u8], Option<&[u8]>)
    ensures parts { slice_split is_line_feed text.now ≡ result.0.now ∷ parts (option_copied result.1) }
    ensures shorter { IfSome result.1 (λ rest. length rest.now < length text.now) }
{
    let (line, rest) = text.split_at(count_before_line_feed(text));
    if rest.is_empty() {
        return (line, None);
    }
    (line, Some(rest.split_at(1).1))
}

// The logical lines that are whole, and one that goes on.
#[derive(Drop)]
struct Joining {
    lines: Seq<Line>,
    begun: Option<Line>,
}

fn with_whole(lines: Seq<Line>, line: Line) -> Result<Seq<Line>, NoMemory>
    ensures { IfOk result (λ all. (more : List Line) → all ++ more ≡ lines ++ before line.number line.text more) }
{
    let mut lines = lines;
    if !line.text.is_empty() {
        lines.push(line)?;
    }
    Ok(lines)
}

// The open line takes a physical line.
fn extended(lines: Seq<Line>, line: Line, text: &[u8]) -> Result<Joining, NoMemory>
    ensures { IfOk result (λ j. (ps : List (ℕ × List ℕ))
        → made j ps ≡ lines ++ before line.number (line.text ++ joined text.now (text_here ps))
        (lines_in (goes_on text.now) ps)) }
{
    let mut line = line;
    if ends_open(text) {
        line.text.append(text.split_at(text.len() - 1).0)?;
        return Ok(Joining {
            lines,
            begun: Some(line),
        });
    }
    line.text.append(text)?;
    Ok(Joining {
        lines: with_whole(lines, line)?,
        begun: None,
    })
}

fn with_line(alloc: Global, joining: Joining, number: u32, text: &[u8]) -> Result<Joining, NoMemory>
    ensures { IfOk result (λ j. (ps : List (ℕ × List ℕ)) → made j ps ≡ made joining ((number, text.now) ∷ ps)) }
{
    let Joining { lines, begun } = joining;
    match begun {
        Some(line) => extended(lines, line, text),
        None => {
            if is_passed_over(text) {
                return Ok(Joining { lines, begun: None });
            }
            let line = Line {
                number,
                text: Bytes::new(alloc),
            };
            extended(lines, line, text)
        }
    }
}

// All logical lines, however long.
fn join_lines(alloc: Global, text: &[u8]) -> Result<Seq<Line>, NoMemory>
    requires { length text.now < 2 ^ 31 }
    ensures { IfOk result (λ lines. lines ≡ logical text.now) }
{
    let mut joining = Joining {
        lines: Seq::new(alloc),
        begun: None,
    };
    let mut rest = Some(text);
    let mut number = 1;
    while let Some(here) = rest {
        let (line, after) = split_line(here);
        joining = with_line(alloc, joining, number, trimmed(line))?;
        number += 1;
        rest = after;
    }
    let Joining { lines, begun } = joining;
    match begun {
        None => Ok(lines),
        Some(line) => with_whole(lines, line),
    }
}

fn count_line_feeds(text: &[u8]) -> usize
    ensures { result ≡ count_by is_line_feed text.now }
{
    text.iter().filter(|b| **b == LINE_FEED).count()
}

// The line of the first byte that begins no character.
fn find_bad_byte(text: &[u8]) -> Option<u32>
    requires { length text.now < 2 ^ 31 }
    ensures { MatchOption result (is_utf8 text.now ≡ true) (λ line. (is_utf8 text.now ≡ false)
        × (line ≡ fault_line text.now)) }
{
    match std::str::from_utf8(text) {
        Ok(_) => None,
        Err(error) => {
            let before = text.split_at(error.valid_up_to()).0;
            Some(count_line_feeds(before) as u32 + 1)
        }
    }
}

fn find_long(lines: &[Line]) -> Option<u32>
    ensures { result ≡ option_map (λ line. line.number) (first_long lines.now) }
{
    for line in lines {
        if line.text.len() > LINE_LIMIT {
            return Some(line.number);
        }
    }
    None
}

/// The logical lines of a text in their order, or its fault: a byte that begins no character, or
/// else the first line that is too long. A line is freed of spaces, tabs and CR at both ends, and
/// goes on in the next where it ends with `\`; lines that are empty, and those that begin with `#`
/// where no line goes on, are passed over. It takes time linear in the text.
#[tactic(auto, unfolding(crate::specs::Lines::lines_of))]
pub fn lines_of(alloc: Global, text: &[u8]) -> Result<Seq<Line>, TextFault>
    requires { length text.now < 2 ^ 31 }
    ensures { AnswersLines text.now result }
{
    if let Some(line) = find_bad_byte(text) {
        return Err(TextFault::NotText { line });
    }
    let lines = join_lines(alloc, text)?;
    if let Some(line) = find_long(lines.as_slice()) {
        return Err(TextFault::TooLong { line });
    }
    Ok(lines)
}

/// Lines written one after the other are read back, numbered from 1.
pub fn written_lines_are_read()
    ensures { (texts : List (List ℕ)) → AllByRecursion IsWhole texts
        → logical (written_lines texts) ≡ numbered 1 texts }
{}
