ghost use Rattle.std.specs.Prelude.{◌≡◌, ◌++◌, ◌∷◌, [], filter, length, map, IfOk, OnOk};
ghost use Rattle.std.specs.List.{zip};
ghost use Rattle.sec_collect.specs.RowList.{row_list};
ghost use Rattle.sec_collect.specs.Selection.{count_row, full_name, keeps, selection, value_row, values_of};
ghost use Rattle.sec_compile.specs.Links.{built_link};
ghost use Rattle.sec_eval.specs.Matching.{matched_of, matches_in, row_of};
ghost use Rattle.sec_meaning.specs.Text.{text_of};
ghost use Rattle.sec_meaning.specs.Values.{match_of, matched_as};
ghost use Rattle.sec_ops.specs.Selectors.{is_matched};

use crate::askers::LinkAsker;
use crate::search::{Search, find_hit};
use crate::text::expanded;
use sec_ast::{Link, Target, Var};
use sec_collect::{RowRef, Rows, TargetQuery, Vars};
use sec_meaning::{Matched, Text};
use sec_ops::NamePattern;
use std::alloc::Global;
use waf_plain::{Bytes, NoMemory, Seq};

/// A value that a link looks at, borrowed.
#[derive(Clone, Copy, Debug)]
pub(crate) struct BorrowedRow<'a> {
    pub var: Var,
    pub name: &'a [u8],
    pub value: &'a [u8],
    pub counted: bool,
}

/// What a link asks of each value, with the argument of its operator expanded.
#[derive(Drop)]
pub(crate) struct Question<'a> {
    pub link: &'a Link,
    pub argument: &'a [u8],
}

/// The rows that a link matches, in order. Rows are borrowed, and only those that match are copied.
pub(crate) fn matches(
    alloc: Global,
    vars: &Vars,
    link: &Link,
    asker: &mut LinkAsker<'_>,
) -> Result<Seq<Matched>, NoMemory>
    requires { asker.old ≡ built_link link.now }
    ensures rows { IfOk result (λ rows. rows ≡ matches_in vars.now link.now) }
    ensures same { asker.new ≡ asker.old }
{
    let argument = expanded(alloc, vars, &link.op.text)?;
    let question = Question {
        link,
        argument: argument.as_slice(),
    };
    let query = TargetQuery {
        targets: link.targets.as_slice(),
        patterns: asker.patterns(),
    };
    matches_of(alloc, vars, &question, asker, &query)
}

// The rows that are matched of what targets select.
fn matches_of(
    alloc: Global,
    vars: &Vars,
    question: &Question<'_>,
    asker: &mut LinkAsker<'_>,
    query: &TargetQuery<'_, NamePattern>,
) -> Result<Seq<Matched>, NoMemory>
    requires { asker.old.op ≡ question.now.link.now.op }
    ensures rows { IfOk result (λ rows. rows ≡ matched_of question.now
        (selection is_matched (zip query.now.targets.now query.now.patterns.now) [] vars.now)) }
    ensures same { asker.new ≡ asker.old }
{
    let mut out = Seq::new(alloc);
    let mut rest = query.patterns;
    for target in query.targets {
        let Some((pattern, following)) = rest.split_first() else {
            return Ok(out);
        };
        add_matches(
            alloc, vars, question, asker, query, target, pattern, &mut out,
        )?;
        rest = following;
    }
    Ok(out)
}

// Adds what is matched of one target.
fn add_matches(
    alloc: Global,
    vars: &Vars,
    question: &Question<'_>,
    asker: &mut LinkAsker<'_>,
    query: &TargetQuery<'_, NamePattern>,
    target: &Target,
    pattern: &Option<NamePattern>,
    out: &mut Seq<Matched>,
) -> Result<(), NoMemory>
    requires { asker.old.op ≡ question.now.link.now.op }
    ensures same { asker.new ≡ asker.old }
    ensures out { OnOk result (out.new ≡ out.old ++ matched_of question.now
        (values_of is_matched (zip query.now.targets.now query.now.patterns.now) [] vars.now
        (target.now, pattern.now))) }
{
    if target.exclude {
        return Ok(());
    }
    let rows = vars.rows(target.var);
    if target.count {
        let count = query.count(target, pattern, rows)?;
        return add_count(alloc, question, asker, target, count, out);
    }
    add_rows(alloc, question, asker, query, target, pattern, rows, out)
}

// Adds the number of a target's rows, where that is matched.
fn add_count(
    alloc: Global,
    question: &Question<'_>,
    asker: &mut LinkAsker<'_>,
    target: &Target,
    count: u64,
    out: &mut Seq<Matched>,
) -> Result<(), NoMemory>
    requires { asker.old.op ≡ question.now.link.now.op }
    ensures same { asker.new ≡ asker.old }
    ensures out { OnOk result (out.new ≡ out.old ++ matched_of question.now (count_row target.now count ∷ [])) }
{
    let counted = RowRef::of_count(alloc, target, count)?;
    let row = BorrowedRow {
        var: counted.var,
        name: counted.name.as_slice(),
        value: counted.value.as_slice(),
        counted: true,
    };
    add_match(alloc, question, asker, row, out)
}

// Adds the rows that a target leaves, where they are matched.
fn add_rows(
    alloc: Global,
    question: &Question<'_>,
    asker: &mut LinkAsker<'_>,
    query: &TargetQuery<'_, NamePattern>,
    target: &Target,
    pattern: &Option<NamePattern>,
    rows: Rows<'_>,
    out: &mut Seq<Matched>,
) -> Result<(), NoMemory>
    requires { asker.old.op ≡ question.now.link.now.op }
    ensures same { asker.new ≡ asker.old }
    ensures out { OnOk result (out.new ≡ out.old ++ matched_of question.now (map (value_row target.now.var) (filter
        (λ r. keeps is_matched (zip query.now.targets.now query.now.patterns.now) []
        (target.now, pattern.now) r.name)
        (row_list rows.entry)))) }
{
    let mut rest = rows;
    while let Some((name, value, following)) = rest.split_first() {
        if query.keeps(target, pattern, name)? {
            let row = BorrowedRow {
                var: target.var,
                name,
                value,
                counted: false,
            };
            add_match(alloc, question, asker, row, out)?;
        }
        rest = following;
    }
    Ok(())
}

// Adds a row, where it is matched.
fn add_match(
    alloc: Global,
    question: &Question<'_>,
    asker: &mut LinkAsker<'_>,
    row: BorrowedRow<'_>,
    out: &mut Seq<Matched>,
) -> Result<(), NoMemory>
    requires { asker.old.op ≡ question.now.link.now.op }
    ensures same { asker.new ≡ asker.old }
    ensures out { OnOk result (out.new ≡ out.old ++ matched_of question.now (row_of row.entry ∷ [])) }
{
    match match_of(alloc, question, asker, row)? {
        Some(matched) => out.push(matched),
        None => Ok(()),
    }
}

fn match_of(
    alloc: Global,
    question: &Question<'_>,
    asker: &mut LinkAsker<'_>,
    row: BorrowedRow<'_>,
) -> Result<Option<Matched>, NoMemory>
    requires { asker.old.op ≡ question.now.link.now.op }
    ensures same { asker.new ≡ asker.old }
    ensures matched { IfOk result (λ matched. matched
        ≡ match_of question.now.link.now question.now.argument.now (row_of row.entry)) }
{
    let link = question.link;
    match find_hit(alloc, link, asker, question.argument, row.value)? {
        Search::Found { value, groups } => {
            if link.negated {
                return Ok(None);
            }
            Ok(Some(matched_as(alloc, row, value, groups)?))
        }
        Search::Missed(value) => {
            if link.negated {
                return Ok(Some(matched_as(alloc, row, value, Seq::new(alloc))?));
            }
            Ok(None)
        }
    }
}

fn matched_as(
    alloc: Global,
    row: BorrowedRow<'_>,
    value: Text<'_>,
    groups: Seq<Option<Bytes>>,
) -> Result<Matched, NoMemory>
    ensures { IfOk result (λ matched. matched ≡ matched_as (row_of row.entry) (text_of value.entry) groups) }
{
    let name = full_name(alloc, row)?;
    let value = value.into_bytes(alloc)?;
    Ok(Matched {
        name,
        value,
        groups,
    })
}

fn full_name(alloc: Global, row: BorrowedRow<'_>) -> Result<Bytes, NoMemory>
    ensures { IfOk result (λ name. name ≡ full_name (row_of row.entry)) }
{
    let name = Bytes::copy(alloc, row.name)?;
    let row = RowRef {
        var: row.var,
        name,
        value: Bytes::new(alloc),
        counted: row.counted,
    };
    row.full_name(alloc)
}
