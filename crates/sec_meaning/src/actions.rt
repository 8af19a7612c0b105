ghost use Rattle.std.specs.Prelude.{◌≡◌, ◌+ℤ◌, ◌-ℤ◌, false, IfOk, OnOk};
ghost use Rattle.std.specs.Fmt.{signed_decimal};
ghost use Rattle.sec_collect.specs.Expansion.{expansion};
ghost use Rattle.sec_collect.specs.Variables.{put_within};
ghost use Rattle.sec_meaning.specs.Links.{act, act_on, act_on_each, bounded, capture, changed, old_number, reached, set_variable, variables_after};
ghost use Rattle.sec_meaning.specs.State.{view_of};
ghost use Rattle.sec_ops.specs.Number.{number};

use crate::{Matched, Transaction};
use sec_ast::{Change, Link, Macro, SetVar};
use sec_ops::number;
use std::alloc::Global;
use waf_plain::{Bytes, NoMemory, Seq};

fn old_number<S: Transaction>(name: &[u8], state: &S) -> i64
    ensures { result ≡ old_number name.now (view_of (S.seen state.now)) }
{
    number(state.tx_value(name))
}

// The number of a variable with that of a macro added.
fn sum<S: Transaction>(
    alloc: Global,
    name: &[u8],
    value: &Macro,
    state: &S,
) -> Result<i64, NoMemory>
    ensures { IfOk result (λ n. n ≡ bounded (old_number name.now (view_of (S.seen state.now))
        +ℤ number (expansion (view_of (S.seen state.now)) value.now))) }
{
    let text = state.expanded(alloc, value)?;
    Ok(old_number(name, state).saturating_add(number(text.as_slice())))
}

// The number of a variable with that of a macro subtracted.
fn difference<S: Transaction>(
    alloc: Global,
    name: &[u8],
    value: &Macro,
    state: &S,
) -> Result<i64, NoMemory>
    ensures { IfOk result (λ n. n ≡ bounded (old_number name.now (view_of (S.seen state.now))
        -ℤ number (expansion (view_of (S.seen state.now)) value.now))) }
{
    let text = state.expanded(alloc, value)?;
    Ok(old_number(name, state).saturating_sub(number(text.as_slice())))
}

fn put_text<S: Transaction>(
    alloc: Global,
    name: &[u8],
    value: &Macro,
    state: &mut S,
) -> Result<(), NoMemory>
    ensures { OnOk result (S.seen state.new ≡ record (S.seen state.old) {
      tx = put_within name.now (expansion (view_of (S.seen state.old)) value.now) (S.seen state.old).tx;
    }) }
{
    let value = state.expanded(alloc, value)?;
    state.set_tx(alloc, name, value.as_slice())
}

fn put_number<S: Transaction>(
    alloc: Global,
    name: &[u8],
    number: i64,
    state: &mut S,
) -> Result<(), NoMemory>
    ensures { OnOk result (S.seen state.new ≡ record (S.seen state.old) {
      tx = put_within name.now (signed_decimal number) (S.seen state.old).tx;
    }) }
{
    let text = number.to_string(alloc)?;
    state.set_tx(alloc, name, text.as_bytes())
}

fn change<S: Transaction>(
    alloc: Global,
    change: &Change,
    name: &[u8],
    state: &mut S,
) -> Result<(), NoMemory>
    ensures { OnOk result (S.seen state.new ≡ record (S.seen state.old) {
      tx = changed change.now name.now (view_of (S.seen state.old));
    }) }
{
    match change {
        Change::Put(value) => put_text(alloc, name, value, state),
        Change::Add(value) => {
            let sum = sum(alloc, name, value, state)?;
            put_number(alloc, name, sum, state)
        }
        Change::Sub(value) => {
            let difference = difference(alloc, name, value, state)?;
            put_number(alloc, name, difference, state)
        }
        Change::Delete => {
            state.delete_tx(alloc, name);
            Ok(())
        }
    }
}

// Nothing changes under an empty name.
fn change_named<S: Transaction>(
    alloc: Global,
    what: &Change,
    name: &[u8],
    state: &mut S,
) -> Result<(), NoMemory>
    ensures { OnOk result (S.seen state.new ≡ record (S.seen state.old) {
      tx = variables_after what.now name.now (view_of (S.seen state.old));
    }) }
{
    match name {
        [] => Ok(()),
        [_, ..] => change(alloc, what, name, state),
    }
}

fn set_variable<S: Transaction>(
    alloc: Global,
    state: &mut S,
    setvar: &SetVar,
) -> Result<(), NoMemory>
    ensures { OnOk result (S.seen state.new ≡ set_variable (S.seen state.old) setvar.now) }
{
    let name = state.expanded(alloc, &setvar.name)?;
    change_named(alloc, &setvar.change, name.as_slice(), state)
}

/// Does what a link says once: its `setvar`s, and then its `ctl`s.
pub fn act<S: Transaction>(alloc: Global, link: &Link, state: &mut S) -> Result<(), NoMemory>
    ensures { OnOk result (S.seen state.new ≡ act link.now (S.seen state.old)) }
{
    for setvar in link.setvars.as_slice() {
        set_variable(alloc, state, setvar)?;
    }
    for ctl in link.ctls.as_slice() {
        state.control(ctl)?;
    }
    Ok(())
}

fn capture<S: Transaction>(
    alloc: Global,
    is_wanted: bool,
    groups: &Seq<Option<Bytes>>,
    state: &mut S,
) -> Result<(), NoMemory>
    ensures { OnOk result (S.seen state.new ≡ capture is_wanted groups.now (S.seen state.old)) }
{
    if !is_wanted || groups.is_empty() {
        return Ok(());
    }
    state.capture(alloc, groups)
}

fn act_on<S: Transaction>(
    alloc: Global,
    link: &Link,
    matched: Matched,
    state: &mut S,
) -> Result<(), NoMemory>
    ensures { OnOk result (S.seen state.new ≡ act_on link.now (S.seen state.old) matched) }
{
    let Matched {
        name,
        value,
        groups,
    } = matched;
    state.add_matched(name, value)?;
    capture(alloc, link.capture, &groups, state)?;
    act(alloc, link, state)
}

/// Does what a link says for each row that it matched, and says whether there is one.
pub fn act_on_each<S: Transaction>(
    alloc: Global,
    link: &Link,
    rows: Vec<Matched>,
    state: &mut S,
) -> Result<bool, NoMemory>
    ensures after { IfOk result (λ holds. reached holds (S.seen state.new)
        ≡ act_on_each link.now rows.items (S.seen state.old)) }
    ensures stays { IfOk result (λ holds. holds ≡ false → S.seen state.new ≡ S.seen state.old) }
{
    if rows.is_empty() {
        return Ok(false);
    }
    state.forget_matched(alloc);
    for row in rows {
        act_on(alloc, link, row, state)?;
    }
    Ok(true)
}
