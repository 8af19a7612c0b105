ghost use Rattle.std.specs.Prelude.{◌≡◌, ◌≤◌, IfErr, IfOk, IfSome, List, Some, ℕ, length, map, true};
ghost use Rattle.std.specs.List.{slice_split};
ghost use Rattle.sec_text.specs.Lines.{is_line_feed};
ghost use Rattle.waf_io.specs.Counts.{Rose};
ghost use Rattle.sec_read.specs.FileWords.{admitted, words_among, words_in};
ghost use Rattle.sec_read.specs.Results.{IsSpot, Tells, WhereUnread, is_unread};

use crate::at::At;
use crate::faults::{Cause, Halt};
use sec_text::{is_passed_over, trimmed};
use std::alloc::Global;
use waf_io::{FileAnswer, Files};
use waf_plain::{Bytes, NoMemory, Seq};

// How many bytes a file has at most, and all texts together.
pub const FILE_LIMIT: u64 = 4_194_304;

const TEXT_LIMIT: u64 = 16_777_216;

// The content of a text, and how many bytes of texts were read up to its end.
#[derive(Drop)]
pub struct Text {
    pub content: Bytes,
    pub total: u64,
}

// The text that a word in a line names, where the file of this name is.
pub fn fetch<F: Files>(
    alloc: Global,
    files: &mut F,
    at: At<'_>,
    word: &[u8],
    name: &[u8],
    total: u64,
) -> Result<Text, Halt>
    ensures same { F.content files.new ≡ F.content files.old }
    ensures later { F.faults files.old ≤ F.faults files.new }
    ensures cause { IfErr result (λ halt. is_unread halt ≡ true → Rose (F.faults files.old) (F.faults files.new)) }
    ensures place { IfErr result (λ halt. WhereUnread halt (IsSpot at.entry.file.now at.entry.line (Some word.now))) }
    ensures within { IfOk result (λ text. length text.content ≤ FILE_LIMIT) }
    ensures told { IfSome (F.content files.old) (λ told.
        Tells (λ text. text) result (admitted at.entry.file.now at.entry.line word.now (told name.now) total)) }
{
    let content = match files.read_file(alloc, name, FILE_LIMIT) {
        FileAnswer::Content(content) => content,
        FileAnswer::Absent => return Err(at.fault(alloc, Cause::NoFile, word)),
        FileAnswer::TooLong => return Err(at.fault(alloc, Cause::TooLong, word)),
        FileAnswer::Failed => return Err(at.unread(alloc, word)),
        FileAnswer::NoMemory => return Err(Halt::NoMemory),
    };
    let total = total.saturating_add(content.len() as u64);
    if total > TEXT_LIMIT {
        return Err(at.fault(alloc, Cause::TooLong, word));
    }
    Ok(Text { content, total })
}

fn split_lines(alloc: Global, content: &[u8]) -> Result<Vec<&[u8]>, NoMemory>
    ensures { IfOk result (λ v. map (λ line. line.now) v.items ≡ slice_split is_line_feed content.now) }
{
    let lines = content.split(|b| *b == b'\n').collect(alloc)?;
    Ok(lines)
}

// The words that these lines are.
fn words_among_lines(alloc: Global, lines: &[&[u8]]) -> Result<Seq<Bytes>, NoMemory>
    ensures { IfOk result (λ words. words ≡ words_among (map (λ line. line.now) lines.now)) }
{
    let mut words = Seq::new(alloc);
    for line in lines {
        let word = trimmed(line);
        if !is_passed_over(word) {
            words.push(Bytes::copy(alloc, word)?)?;
        }
    }
    Ok(words)
}

// The words of a text: one a line, but for empty lines and those that begin with `#`.
pub fn words_of_text(alloc: Global, content: &[u8]) -> Result<Seq<Bytes>, NoMemory>
    ensures { IfOk result (λ words. words ≡ words_in content.now) }
{
    let lines = split_lines(alloc, content)?;
    words_among_lines(alloc, lines.as_slice())
}
