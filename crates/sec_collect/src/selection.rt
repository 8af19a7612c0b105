ghost use Rattle.std.specs.Prelude.{◌≡◌, ◌++◌, ◌||◌, [], length, map, filter, IfOk, OnOk};
ghost use Rattle.std.specs.List.{list_any, zip};
ghost use Rattle.sec_collect.specs.RowList.{row_list};
ghost use Rattle.sec_collect.specs.Selection.{excludes, is_matched, is_selected, keeps, names, removes, same_variable, selection, value_row, values_of};

use crate::{RowRef, Rows, Vars};
use sec_ast::{Select, Selector, Target, Var};
use std::alloc::Global;
use waf_plain::{NoMemory, Seq};

/// The values that a rule with these targets looks at, target by target, each in the order of its
/// rows (ModSecurity reference manual, "SecRule"). `patterns` has for each target the pattern by which
/// it selects, if it does. What an excluding or a removed target selects is left out, also where the
/// rows of another target are counted.
pub fn select<M: Selector>(
    alloc: Global,
    vars: &Vars,
    targets: &Seq<Target>,
    patterns: &Seq<Option<M>>,
    removed: &Seq<Target>,
) -> Result<Seq<RowRef>, NoMemory>
    ensures { IfOk result (λ rows. rows ≡ selection M.meaning (zip targets.now patterns.now) removed.now vars.now) }
{
    let query = TargetQuery {
        targets: targets.as_slice(),
        patterns: patterns.as_slice(),
    };
    let removed = removed.as_slice();
    let mut out = Seq::new(alloc);
    let mut rest = patterns.as_slice();
    for target in targets.as_slice() {
        let Some((pattern, following)) = rest.split_first() else {
            return Ok(out);
        };
        add_values(alloc, vars, &query, removed, target, pattern, &mut out)?;
        rest = following;
    }
    Ok(out)
}

/// What a rule looks at: its targets, and for each of them the pattern by which it selects, if it does.
/// No target is removed from it.
#[derive(Drop)]
pub struct TargetQuery<'a, M> {
    pub targets: &'a [Target],
    pub patterns: &'a [Option<M>],
}

impl<'a, M: Selector> TargetQuery<'a, M> {
    /// Whether one of the targets, beside its pattern, selects rows of a name, and no other target takes
    /// them away.
    pub fn keeps(&self, target: &Target, pattern: &Option<M>, name: &[u8]) -> Result<bool, NoMemory>
        ensures { IfOk result (λ is. is ≡ keeps M.meaning (zip self.now.targets.now self.now.patterns.now) []
            (target.now, pattern.now) name.now) }
    {
        keeps(self, &[], target, pattern, name)
    }

    /// How many rows one of the targets, beside its pattern, leaves of these.
    pub fn count(
        &self,
        target: &Target,
        pattern: &Option<M>,
        rows: Rows<'_>,
    ) -> Result<u64, NoMemory>
        ensures { IfOk result (λ n. n ≡ length (filter
            (λ r. keeps M.meaning (zip self.now.targets.now self.now.patterns.now) [] (target.now, pattern.now) r.name)
            (row_list rows.entry))) }
    {
        count(self, &[], target, pattern, rows)
    }
}

fn keeps<M: Selector>(
    query: &TargetQuery<'_, M>,
    removed: &[Target],
    target: &Target,
    pattern: &Option<M>,
    name: &[u8],
) -> Result<bool, NoMemory>
    ensures { IfOk result (λ is. is ≡ keeps M.meaning (zip query.now.targets.now query.now.patterns.now) removed.now
        (target.now, pattern.now) name.now) }
{
    if !is_selected(&target.select, pattern, name)? {
        return Ok(false);
    }
    if is_removed(removed, target.var, name) {
        return Ok(false);
    }
    let is_excluded = is_excluded(query.targets, query.patterns, target.var, name)?;
    Ok(!is_excluded)
}

fn count<M: Selector>(
    query: &TargetQuery<'_, M>,
    removed: &[Target],
    target: &Target,
    pattern: &Option<M>,
    rows: Rows<'_>,
) -> Result<u64, NoMemory>
    ensures { IfOk result (λ n. n ≡ length (filter
        (λ r. keeps M.meaning (zip query.now.targets.now query.now.patterns.now) removed.now
        (target.now, pattern.now) r.name)
        (row_list rows.entry))) }
{
    let mut count: u64 = 0;
    let mut rest = rows;
    while let Some((name, _, following)) = rest.split_first() {
        if keeps(query, removed, target, pattern, name)? {
            count = count.checked_add(1).ok_or(NoMemory)?;
        }
        rest = following;
    }
    Ok(count)
}

// Adds what a target gives.
fn add_values<M: Selector>(
    alloc: Global,
    vars: &Vars,
    query: &TargetQuery<'_, M>,
    removed: &[Target],
    target: &Target,
    pattern: &Option<M>,
    out: &mut Seq<RowRef>,
) -> Result<(), NoMemory>
    ensures { OnOk result (out.new ≡ out.old ++ values_of M.meaning (zip query.now.targets.now query.now.patterns.now)
        removed.now vars.now (target.now, pattern.now)) }
{
    if target.exclude {
        return Ok(());
    }
    let rows = vars.rows(target.var);
    if target.count {
        let count = count(query, removed, target, pattern, rows)?;
        return out.push(RowRef::of_count(alloc, target, count)?);
    }
    add_rows(alloc, query, removed, target, pattern, rows, out)
}

// Adds copies of the rows that a target leaves.
fn add_rows<M: Selector>(
    alloc: Global,
    query: &TargetQuery<'_, M>,
    removed: &[Target],
    target: &Target,
    pattern: &Option<M>,
    rows: Rows<'_>,
    out: &mut Seq<RowRef>,
) -> Result<(), NoMemory>
    ensures { OnOk result (out.new ≡ out.old ++ map (value_row target.now.var) (filter
        (λ r. keeps M.meaning (zip query.now.targets.now query.now.patterns.now) removed.now
        (target.now, pattern.now) r.name)
        (row_list rows.entry))) }
{
    let mut rest = rows;
    while let Some((name, value, following)) = rest.split_first() {
        if keeps(query, removed, target, pattern, name)? {
            out.push(RowRef::of_row(alloc, target.var, name, value)?)?;
        }
        rest = following;
    }
    Ok(())
}

fn is_selected<M: Selector>(
    select: &Select,
    pattern: &Option<M>,
    name: &[u8],
) -> Result<bool, NoMemory>
    ensures { IfOk result (λ is. is ≡ is_selected M.meaning select.now pattern.now name.now) }
{
    match select {
        Select::All => Ok(true),
        Select::Name(wanted) => Ok(wanted.as_slice().eq_ignore_ascii_case(name)),
        Select::Pattern(_) => is_matched(pattern, name),
    }
}

fn is_matched<M: Selector>(pattern: &Option<M>, name: &[u8]) -> Result<bool, NoMemory>
    ensures { IfOk result (λ is. is ≡ is_matched M.meaning pattern.now name.now) }
{
    match pattern {
        Some(pattern) => pattern.selects(name),
        None => Ok(false),
    }
}

fn is_excluded<M: Selector>(
    targets: &[Target],
    patterns: &[Option<M>],
    var: Var,
    name: &[u8],
) -> Result<bool, NoMemory>
    ensures { IfOk result (λ is. is ≡ list_any (excludes M.meaning var name.now) (zip targets.now patterns.now)) }
{
    let mut rest = patterns;
    for target in targets {
        let Some((pattern, following)) = rest.split_first() else {
            return Ok(false);
        };
        if excludes(target, pattern, var, name)? {
            return Ok(true);
        }
        rest = following;
    }
    Ok(false)
}

fn excludes<M: Selector>(
    target: &Target,
    pattern: &Option<M>,
    var: Var,
    name: &[u8],
) -> Result<bool, NoMemory>
    ensures { IfOk result (λ is. is ≡ excludes M.meaning var name.now (target.now, pattern.now)) }
{
    if target.exclude && same_variable(target.var, var) {
        return is_selected(&target.select, pattern, name);
    }
    Ok(false)
}

fn is_removed(removed: &[Target], var: Var, name: &[u8]) -> bool
    ensures { result ≡ list_any (removes var name.now) removed.now }
{
    removed.iter().any(|target| same_variable(target.var, var) && names(&target.select, name))
}

fn names(select: &Select, name: &[u8]) -> bool
    ensures { result ≡ names select.now name.now }
{
    match select {
        Select::All => true,
        Select::Name(wanted) => wanted.as_slice().eq_ignore_ascii_case(name),
        Select::Pattern(_) => false,
    }
}

fn same_variable(a: Var, b: Var) -> bool
    ensures { result ≡ same_variable a b }
{
    a.name() == b.name()
}
