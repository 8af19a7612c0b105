ghost use Rattle.std.specs.Prelude.{◌≡◌, ◌≤◌, IfErr, IfSome, Some, true};
ghost use Rattle.sec_parts.specs.Results.{Gives};
ghost use Rattle.waf_io.specs.Counts.{Rose};
ghost use Rattle.sec_read.specs.Operators.{checked, filled, filled_from, operator_at, with_words};
ghost use Rattle.sec_parts.specs.Operators.{operator_of};
ghost use Rattle.sec_read.specs.Places.{operator_file};
ghost use Rattle.sec_read.specs.Results.{Answers, IsSpot, Tells, WhereUnread, is_unread};

use crate::addresses::find_no_address;
use crate::at::At;
use crate::faults::{Cause, Halt, bad_word};
use crate::names::{has_wildcard_byte, name_beside};
use crate::texts::{fetch, words_of_text};
use sec_ast::{Op, OpKind};
use sec_parts::{Operator, Refusal, read_operator};
use std::alloc::Global;
use waf_io::Files;
use waf_plain::{Bytes, Seq};

// The operator, where its addresses are some.
fn check_addresses(alloc: Global, operator: Operator) -> Result<Operator, Refusal>
    ensures { Gives (λ o. o) result (checked operator) }
{
    if operator.op.kind != OpKind::IpMatch {
        return Ok(operator);
    }
    match find_no_address(operator.op.words.as_slice()) {
        None => Ok(operator),
        Some(word) => {
            let refusal = bad_word(alloc, word.as_slice());
            drop(operator);
            Err(refusal)
        }
    }
}

fn put_words(operator: Operator, words: Seq<Bytes>) -> Operator
    ensures { result ≡ with_words operator words }
{
    let Operator { negated, op, file } = operator;
    Operator {
        negated,
        op: Op {
            kind: op.kind,
            text: op.text,
            words,
        },
        file,
    }
}

// The words of the file of this name, which a word in a line stands for, and how many bytes of texts were
// read by then.
fn fetch_words<F: Files>(
    alloc: Global,
    files: &mut F,
    at: At<'_>,
    word: &[u8],
    name: &[u8],
    total: u64,
) -> Result<(Seq<Bytes>, u64), Halt>
    ensures same { F.content files.new ≡ F.content files.old }
    ensures later { F.faults files.old ≤ F.faults files.new }
    ensures cause { IfErr result (λ halt. is_unread halt ≡ true → Rose (F.faults files.old) (F.faults files.new)) }
    ensures place { IfErr result (λ halt. WhereUnread halt (IsSpot at.entry.file.now at.entry.line (Some word.now))) }
    ensures told { IfSome (F.content files.old) (λ told. (operator : Operator)
        → Tells (λ found. (with_words operator found.0, found.1)) result
        (filled_from at.entry.file.now at.entry.line word.now (told name.now) operator total)) }
{
    let text = fetch(alloc, files, at, word, name, total)?;
    let words = words_of_text(alloc, text.content.as_slice())?;
    Ok((words, text.total))
}

// The words of the file that an operator names, and how many bytes of texts were read by then.
fn read_words<F: Files>(
    alloc: Global,
    files: &mut F,
    at: At<'_>,
    word: &[u8],
    total: u64,
) -> Result<(Seq<Bytes>, u64), Halt>
    ensures same { F.content files.new ≡ F.content files.old }
    ensures later { F.faults files.old ≤ F.faults files.new }
    ensures cause { IfErr result (λ halt. is_unread halt ≡ true → Rose (F.faults files.old) (F.faults files.new)) }
    ensures place { IfErr result (λ halt. WhereUnread halt (IsSpot at.entry.file.now at.entry.line (Some word.now))) }
    ensures told { IfSome (F.content files.old) (λ told. (operator : Operator)
        → Tells (λ found. (with_words operator found.0, found.1)) result
        (filled told at.entry.file.now at.entry.line (Some word.now) operator total)) }
{
    if has_wildcard_byte(word) {
        return Err(at.fault(alloc, Cause::RefusedByName, word));
    }
    let name = name_beside(alloc, at.file, word)?;
    fetch_words(alloc, files, at, word, name.as_slice(), total)
}

// The operator with the words of the file that it names, if it names one.
fn fill<F: Files>(
    alloc: Global,
    files: &mut F,
    at: At<'_>,
    operator: Operator,
    total: u64,
) -> Result<(Operator, u64), Halt>
    ensures same { F.content files.new ≡ F.content files.old }
    ensures later { F.faults files.old ≤ F.faults files.new }
    ensures cause { IfErr result (λ halt. is_unread halt ≡ true → Rose (F.faults files.old) (F.faults files.new)) }
    ensures place { IfErr result (λ halt. WhereUnread halt (IsSpot at.entry.file.now at.entry.line operator.file)) }
    ensures told { IfSome (F.content files.old) (λ told.
        Tells (λ x. x) result (filled told at.entry.file.now at.entry.line operator.file operator total)) }
{
    let Some(word) = &operator.file else {
        return Ok((operator, total));
    };
    match read_words(alloc, files, at, word.as_slice(), total) {
        Ok((words, total)) => Ok((put_words(operator, words), total)),
        Err(halt) => {
            drop(operator);
            Err(halt)
        }
    }
}

// The operator that a word states, with all its words, and how many bytes of texts were read by then.
#[tactic(auto, unfolding(crate::specs::Operators::operator_at))]
pub fn read_operator_at<F: Files>(
    alloc: Global,
    files: &mut F,
    at: At<'_>,
    word: &[u8],
    total: u64,
) -> Result<(Operator, u64), Halt>
    ensures same { F.content files.new ≡ F.content files.old }
    ensures later { F.faults files.old ≤ F.faults files.new }
    ensures cause { IfErr result (λ halt. is_unread halt ≡ true → Rose (F.faults files.old) (F.faults files.new)) }
    ensures place { IfErr result (λ halt.
        WhereUnread halt (IsSpot at.entry.file.now at.entry.line (operator_file (operator_of word.now)))) }
    ensures told { IfSome (F.content files.old) (λ told.
        Tells (λ x. x) result (operator_at told at.entry.file.now at.entry.line word.now total)) }
{
    let operator = at.placed(alloc, read_operator(alloc, word))?;
    let (operator, total) = fill(alloc, files, at, operator, total)?;
    let operator = at.placed(alloc, check_addresses(alloc, operator))?;
    Ok((operator, total))
}
