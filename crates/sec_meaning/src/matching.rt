ghost use Rattle.std.specs.Prelude.{◌≡◌, ◌++◌, [], IfOk, OnOk};
ghost use Rattle.std.specs.List.{flat_map, zip};
ghost use Rattle.sec_collect.specs.Expansion.{expansion};
ghost use Rattle.sec_collect.specs.Selection.{selection};
ghost use Rattle.sec_ops.specs.Hits.{hit};
ghost use Rattle.sec_ops.specs.Selectors.{is_matched, patterns_of};
ghost use Rattle.sec_transforms.specs.Apply.{chained};
ghost use Rattle.sec_meaning.specs.Values.{first_hit, listed, match_of, matched_as, matches, unless_hit};

use crate::patterns::{built_of, patterns_of};
use crate::values::{tested, vars_of};
use crate::{Found, Matched, PlainState};
use sec_ast::{Link, Target};
use sec_collect::{RowRef, Vars, expand, select};
use sec_ops::{Built, Hit, holds};
use sec_transforms::apply_chain;
use std::alloc::Global;
use waf_plain::{Bytes, NoMemory, Seq};

fn first_hit(built: &Built, argument: &[u8], values: &[Bytes]) -> Result<Option<Found>, NoMemory>
    ensures { IfOk result (λ found. found ≡ first_hit (hit built.now argument.now) values.now) }
{
    for value in values {
        match holds(built, argument, value.as_slice())? {
            Hit::No => {}
            Hit::Yes { groups } => {
                let value = value.clone()?;
                return Ok(Some(Found { value, groups }));
            }
        }
    }
    Ok(None)
}

fn unless_hit(
    alloc: Global,
    link: &Link,
    row: &RowRef,
    found: Option<Found>,
) -> Result<Option<Matched>, NoMemory>
    ensures { IfOk result (λ matched. matched
        ≡ unless_hit found (matched_as row.now (chained link.now.transforms row.now.value) [])) }
{
    match found {
        Some(_) => Ok(None),
        None => {
            let name = row.full_name(alloc)?;
            let value = apply_chain(alloc, &link.transforms, row.value.as_slice())?;
            Ok(Some(Matched {
                name,
                value,
                groups: Seq::new(alloc),
            }))
        }
    }
}

fn matched_as(alloc: Global, row: &RowRef, found: Found) -> Result<Matched, NoMemory>
    ensures { IfOk result (λ matched. matched ≡ matched_as row.now found.value found.groups) }
{
    let name = row.full_name(alloc)?;
    let Found { value, groups } = found;
    Ok(Matched {
        name,
        value,
        groups,
    })
}

fn match_of(
    alloc: Global,
    link: &Link,
    built: &Built,
    argument: &[u8],
    row: &RowRef,
) -> Result<Option<Matched>, NoMemory>
    requires { built.now ≡ link.now.op }
    ensures { IfOk result (λ matched. matched ≡ match_of link.now argument.now row.now) }
{
    let values = tested(alloc, link, row.value.as_slice())?;
    let found = first_hit(built, argument, values.as_slice())?;
    if link.negated {
        return unless_hit(alloc, link, row, found);
    }
    match found {
        Some(found) => Ok(Some(matched_as(alloc, row, found)?)),
        None => Ok(None),
    }
}

fn add_match(
    alloc: Global,
    link: &Link,
    built: &Built,
    argument: &[u8],
    row: &RowRef,
    out: &mut Seq<Matched>,
) -> Result<(), NoMemory>
    requires { built.now ≡ link.now.op }
    ensures { OnOk result (out.new ≡ out.old ++ listed (match_of link.now argument.now row.now)) }
{
    match match_of(alloc, link, built, argument, row)? {
        Some(matched) => out.push(matched),
        None => Ok(()),
    }
}

fn matches_in(
    alloc: Global,
    link: &Link,
    built: &Built,
    argument: &[u8],
    rows: &[RowRef],
) -> Result<Seq<Matched>, NoMemory>
    requires { built.now ≡ link.now.op }
    ensures { IfOk result (λ out. out ≡ flat_map (λ r. listed (match_of link.now argument.now r)) rows.now) }
{
    let mut out = Seq::new(alloc);
    for row in rows {
        add_match(alloc, link, built, argument, row, &mut out)?;
    }
    Ok(out)
}

// The values that targets select.
fn selected(alloc: Global, targets: &Seq<Target>, vars: &Vars) -> Result<Seq<RowRef>, NoMemory>
    ensures { IfOk result (λ rows. rows
        ≡ selection is_matched (zip targets.now (patterns_of targets.now)) [] vars.now) }
{
    let patterns = patterns_of(alloc, targets.as_slice())?;
    let removed = Seq::new(alloc);
    select(alloc, vars, targets, &patterns, &removed)
}

// The rows that a link matches among the variables of a state.
fn matches_of(alloc: Global, link: &Link, vars: &Vars) -> Result<Seq<Matched>, NoMemory>
    ensures { IfOk result (λ out. out ≡ flat_map
        (λ r. listed (match_of link.now (expansion vars.now link.now.op.text) r))
        (selection is_matched (zip link.now.targets (patterns_of link.now.targets)) [] vars.now)) }
{
    let argument = expand(alloc, vars, &link.op.text)?;
    let rows = selected(alloc, &link.targets, vars)?;
    let built = built_of(alloc, &link.op)?;
    matches_in(alloc, link, &built, argument.as_slice(), rows.as_slice())
}

/// The rows that a link matches.
pub(crate) fn matches(
    alloc: Global,
    link: &Link,
    state: &PlainState,
) -> Result<Seq<Matched>, NoMemory>
    ensures { IfOk result (λ rows. rows ≡ matches link.now state.now) }
{
    let vars = vars_of(alloc, state)?;
    let rows = matches_of(alloc, link, &vars);
    drop(vars);
    rows
}
