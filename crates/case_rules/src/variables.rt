// The variables of a transaction: which rows a list of targets selects, and macros with their values.

use crate::transactions::request_of;
use crate::variables_steps::take_steps;
use case_text::{Answer, halves};
use sec_ast::{Macro, Select, Target};
use sec_collect::{RowRef, Vars, expand, select};
use sec_ops::NamePattern;
use sec_parts::{read_macro, read_targets};
use std::alloc::Global;
use waf_plain::{Bytes, NoMemory, Seq};

/// `REQUEST RESPONSE STEPS CALL TEXT`. The call `select`, of a target list and, in a second line, one of
/// removed targets: each row by its full name and its value. `expand`, of a macro: its text.
pub fn answer(alloc: Global, given: &[Bytes], out: &mut Answer) {
    let [request, response, steps, call, text] = given else {
        return out.malformed();
    };
    let vars = vars_after(
        alloc,
        request.as_slice(),
        response.as_slice(),
        steps.as_slice(),
    );
    match vars {
        Ok(vars) => put_and_drop(alloc, vars, call.as_slice(), text.as_slice(), out),
        Err(NoMemory) => out.no_memory(),
    }
}

// The variables of a request after these steps.
fn vars_after(
    alloc: Global,
    request: &[u8],
    response: &[u8],
    steps: &[u8],
) -> Result<Vars, NoMemory> {
    let mut vars = vars_of(alloc, request)?;
    match take_steps(alloc, response, steps, &mut vars) {
        Ok(()) => Ok(vars),
        Err(NoMemory) => {
            drop(vars);
            Err(NoMemory)
        }
    }
}

fn vars_of(alloc: Global, request: &[u8]) -> Result<Vars, NoMemory> {
    let request = request_of(alloc, request)?;
    Vars::new(alloc, request)
}

fn put_and_drop(alloc: Global, vars: Vars, call: &[u8], text: &[u8], out: &mut Answer) {
    put(alloc, &vars, call, text, out);
    drop(vars)
}

fn put(alloc: Global, vars: &Vars, call: &[u8], text: &[u8], out: &mut Answer) {
    match call {
        b"select" => selected(alloc, vars, text, out),
        b"expand" => expanded(alloc, vars, text, out),
        _ => out.malformed(),
    }
}

fn expanded(alloc: Global, vars: &Vars, text: &[u8], out: &mut Answer) {
    match read_macro(alloc, text) {
        Ok(parts) => put_expansion(alloc, vars, &parts, out),
        Err(_) => out.malformed(),
    }
}

fn put_expansion(alloc: Global, vars: &Vars, parts: &Macro, out: &mut Answer) {
    match expand(alloc, vars, parts) {
        Ok(text) => out.quoted(text.as_slice()),
        Err(NoMemory) => out.no_memory(),
    }
}

fn selected(alloc: Global, vars: &Vars, text: &[u8], out: &mut Answer) {
    let (first, second) = halves(text, b'\n');
    match (targets_of(alloc, first), removed(alloc, second)) {
        (Some(targets), Some(removed)) => put_rows(alloc, vars, &targets, &removed, out),
        _ => out.malformed(),
    }
}

fn targets_of(alloc: Global, text: &[u8]) -> Option<Seq<Target>> {
    match read_targets(alloc, text) {
        Ok(targets) => Some(targets),
        Err(_) => None,
    }
}

fn removed(alloc: Global, text: Option<&[u8]>) -> Option<Seq<Target>> {
    match text {
        Some(text) => targets_of(alloc, text),
        None => Some(Seq::new(alloc)),
    }
}

fn put_rows(
    alloc: Global,
    vars: &Vars,
    targets: &Seq<Target>,
    removed: &Seq<Target>,
    out: &mut Answer,
) {
    match rows_of(alloc, vars, targets, removed) {
        Ok(rows) => {
            for row in rows.as_slice() {
                put_row(alloc, row, out);
            }
        }
        Err(NoMemory) => out.no_memory(),
    }
}

fn rows_of(
    alloc: Global,
    vars: &Vars,
    targets: &Seq<Target>,
    removed: &Seq<Target>,
) -> Result<Seq<RowRef>, NoMemory> {
    let patterns = patterns_of(alloc, targets.as_slice())?;
    select(alloc, vars, targets, &patterns, removed)
}

fn put_row(alloc: Global, row: &RowRef, out: &mut Answer) {
    match row.full_name(alloc) {
        Ok(name) => out.quoted(name.as_slice()),
        Err(NoMemory) => out.no_memory(),
    }
    out.quoted(row.value.as_slice())
}

fn patterns_of(alloc: Global, targets: &[Target]) -> Result<Seq<Option<NamePattern>>, NoMemory> {
    let mut patterns = Seq::new(alloc);
    for target in targets {
        patterns.push(pattern_of(alloc, &target.select)?)?;
    }
    Ok(patterns)
}

fn pattern_of(alloc: Global, select: &Select) -> Result<Option<NamePattern>, NoMemory> {
    let Select::Pattern(pattern) = select else {
        return Ok(None);
    };
    match NamePattern::read(alloc, pattern.as_slice()) {
        Ok(pattern) => Ok(Some(pattern)),
        Err(_) => Err(NoMemory),
    }
}
