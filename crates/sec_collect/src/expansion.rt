ghost use Rattle.std.specs.Prelude.{◌≡◌, ◌++◌, ◌≤◌, [], length, take, IfOk, OnOk};
ghost use Rattle.sec_collect.specs.declared.expansion.TheConstants.{EXPANSION_LIMIT};
ghost use Rattle.sec_collect.specs.Row.{is_named};
ghost use Rattle.sec_collect.specs.Expansion.{expansion, first_value, is_wanted, part_text};
ghost use Rattle.sec_collect.specs.RowList.{row_list};

use crate::{Rows, Vars};
use sec_ast::{Macro, Part};
use std::alloc::Global;
use waf_plain::{Bytes, NoMemory};

/// How many bytes of an expanded macro are taken.
pub const EXPANSION_LIMIT: usize = 65536;

/// A macro with values in the places of its references, as far as its first 65536 bytes. A reference is
/// the value of the first row of its variable, or of the first with its key as name, without regard
/// to case; one to no row is empty (ModSecurity reference manual, "Macro Expansion").
pub fn expand(alloc: Global, vars: &Vars, text: &Macro) -> Result<Bytes, NoMemory>
    ensures { IfOk result (λ bytes. bytes ≡ expansion vars.now text.now) }
{
    let mut out = Bytes::new(alloc);
    for part in text.as_slice() {
        add_within(&mut out, part_text(vars, part))?;
    }
    Ok(out)
}

// Adds as many bytes as there is room for.
fn add_within(out: &mut Bytes, text: &[u8]) -> Result<(), NoMemory>
    requires { length out.old ≤ EXPANSION_LIMIT }
    ensures { OnOk result (out.new ≡ take EXPANSION_LIMIT (out.old ++ text.now)) }
{
    let room = EXPANSION_LIMIT - out.len();
    out.append(first_bytes(text, room))
}

fn first_bytes(text: &[u8], count: usize) -> &[u8]
    ensures { result.now ≡ take count text.now }
{
    if count < text.len() {
        return text.split_at(count).0;
    }
    text
}

fn part_text<'a>(vars: &'a Vars, part: &'a Part) -> &'a [u8]
    ensures { result.now ≡ part_text vars.entry.now part.entry.now }
{
    match part {
        Part::Text(text) => text.as_slice(),
        Part::Ref(var, key) => first_value(vars.rows(*var), key),
    }
}

// The value of the first row, with a key of the first of that name; empty where there is none.
fn first_value<'a>(rows: Rows<'a>, key: &Option<Bytes>) -> &'a [u8]
    ensures { result.now ≡ first_value key.now (row_list rows.entry) }
{
    let mut rest = rows;
    while let Some((name, value, following)) = rest.split_first() {
        if is_wanted(key, name) {
            return value;
        }
        rest = following;
    }
    &[]
}

fn is_wanted(key: &Option<Bytes>, name: &[u8]) -> bool
    ensures { result ≡ is_wanted key.now (record { name = name.now; value = [] }) }
{
    match key {
        Some(key) => key.as_slice().eq_ignore_ascii_case(name),
        None => true,
    }
}
