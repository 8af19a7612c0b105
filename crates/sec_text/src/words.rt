ghost use Rattle.std.specs.Prelude.{◌≡◌, ◌↔◌, IsTrue, take, drop, option_copied};
ghost use Rattle.std.specs.Option.{option_map};
ghost use Rattle.std.specs.List.{prefix_len, list_any, AllByRecursion};
ghost use Rattle.sec_text.specs.Written.{spread, ends_with_backslash};
ghost use Rattle.std.specs.Prelude.{not, false, ◌≢◌, ℕ, List, MatchResult, ◌==◌, OnOk, Option, Result, ◌≤◌, length, IfOk, IfSome, Some, None, Ok, Err};
ghost use Rattle.sec_text.specs.Quotes.{is_blank, quoted, quoted_byte, begins};
ghost use Rattle.sec_text.specs.declared.characters.TheConstants.{QUOTE};
ghost use Rattle.sec_text.specs.Words.{Gives, is_plain, is_apart, closed, plain, plain_end, word_here, next_word, words, AreWords};

use crate::characters::{BACKSLASH, QUOTE};
use crate::faults::WordFault;
use crate::line::Line;
use crate::margins::{Margin, is_blank_byte, trim_start};
use crate::quotes::read_quoted;
use std::alloc::Global;
use waf_plain::{Bytes, Seq};

// How many bytes that are no blanks stand at the front.
fn count_others(bytes: &[u8]) -> usize
    ensures count { result ≡ plain_end bytes.now }
    ensures within { result ≤ length bytes.now }
{
    let mut count = 0;
    while count < bytes.len() && !is_blank_byte(bytes[count]) {
        count += 1;
    }
    count
}

fn has_plain_form(word: &[u8]) -> bool
    ensures { result ≡ is_plain word.now }
{
    let ends_open = match word {
        [] => false,
        [.., last] => *last == BACKSLASH,
    };
    !word.contains(&QUOTE) && !ends_open
}

fn stands_apart(rest: &[u8]) -> bool
    ensures { result ≡ is_apart rest.now }
{
    match rest {
        [] => true,
        [first, ..] => is_blank_byte(*first),
    }
}

fn read_plain(alloc: Global, bytes: &[u8]) -> Result<Option<(Bytes, &[u8])>, WordFault>
    ensures { Gives (λ read. option_map (λ x. (x.0, x.1.now)) read) result (plain bytes.now) }
{
    let (word, rest) = bytes.split_at(count_others(bytes));
    if !has_plain_form(word) {
        return Err(WordFault::BadWord);
    }
    match Bytes::copy(alloc, word) {
        Ok(word) => Ok(Some((word, rest))),
        Err(_) => Err(WordFault::NoMemory),
    }
}

fn read_closed(alloc: Global, bytes: &[u8]) -> Result<Option<(Bytes, &[u8])>, WordFault>
    ensures { Gives (λ read. option_map (λ x. (x.0, x.1.now)) read) result (closed (quoted QUOTE bytes.now)) }
{
    match read_quoted(alloc, QUOTE, bytes) {
        Ok(None) => Err(WordFault::OpenQuote),
        Ok(Some((word, rest))) => {
            if !stands_apart(rest) {
                return Err(WordFault::BadWord);
            }
            Ok(Some((word, rest)))
        }
        Err(_) => Err(WordFault::NoMemory),
    }
}

#[tactic(auto, unfolding(crate::specs::Words::next_word))]
fn read_word(alloc: Global, line: &[u8]) -> Result<Option<(Bytes, &[u8])>, WordFault>
    ensures { Gives (λ read. option_map (λ x. (x.0, x.1.now)) read) result (next_word line.now) }
{
    let line = trim_start(Margin::Blanks, line);
    match line {
        [] => Ok(None),
        [QUOTE, rest @ ..] => read_closed(alloc, rest),
        _ => read_plain(alloc, line),
    }
}

// The same by the relation.
fn find_words(alloc: Global, line: &[u8]) -> Result<Seq<Bytes>, WordFault>
    ensures { MatchResult result (λ found. AreWords line.now (Ok found)) (λ fault. (fault ≢ WordFault.NoMemory)
        → AreWords line.now (Err fault)) }
{
    let mut words = Seq::new(alloc);
    let mut rest = line;
    loop {
        let Some((word, after)) = read_word(alloc, rest)? else {
            return Ok(words);
        };
        words.push(word)?;
        rest = after;
    }
}

/// The words of a line, parted by spaces and tabs, or its first fault from the left. A word that
/// begins with `"` is quoted as `read_quoted` reads it; any other stands for itself.
pub fn words_of(alloc: Global, line: &Line) -> Result<Seq<Bytes>, WordFault>
    ensures { Gives (λ found. found) result (words line.now.text) }
{
    find_words(alloc, line.text.as_slice())
}

/// A line has one reading: its words, or its first fault.
pub fn one_reading_of_a_line()
    ensures is { (line : List ℕ) → AreWords line (words line) }
    ensures only { (line : List ℕ) (answer : Result (List (List ℕ)) WordFault) → AreWords line answer
        → answer ≡ words line }
{}

/// Words written in quotes, each behind a space, are read back.
pub fn written_words_are_read()
    ensures { (given : List (List ℕ)) → AllByRecursion (λ word. ends_with_backslash word ≡ false) given
        → words (spread given) ≡ Ok given }
{}
