ghost use Rattle.std.specs.Prelude.{◌≡◌, ◌++◌, ◌∷◌, [], if◌then◌else◌, IfOk, OnOk, None};
ghost use Rattle.std.specs.Str.{bytes_eq};
ghost use Rattle.sec_collect.specs.Body.{chosen_processor};
ghost use Rattle.sec_collect.specs.Expansion.{expansion};
ghost use Rattle.sec_meaning.specs.State.{view_of};
ghost use Rattle.sec_meaning.specs.Values.{before_chain, change, changes, tested};
ghost use Rattle.sec_transforms.specs.Apply.{transformed};

use crate::PlainState;
use sec_ast::{Link, Macro, Processor, Transform};
use sec_collect::{AddedResponse, OpenedBody, Vars, expand};
use sec_transforms::{apply, apply_chain};
use std::alloc::Global;
use waf_plain::{Bytes, NoMemory, Seq};

/// The variables of a state, to select and to expand by.
pub(crate) fn vars_of(alloc: Global, state: &PlainState) -> Result<Vars, NoMemory>
    ensures { IfOk result (λ vars. vars ≡ view_of state.now) }
{
    let request = state.request.clone()?;
    let mut vars = Vars::new(alloc, request)?;
    vars.set_processor(state.processor);
    match fill(alloc, state, &mut vars) {
        Ok(()) => Ok(vars),
        Err(NoMemory) => {
            drop(vars);
            Err(NoMemory)
        }
    }
}

// Adds what came after the request.
fn fill(alloc: Global, state: &PlainState, vars: &mut Vars) -> Result<(), NoMemory>
    requires body { vars.old.body ≡ None }
    requires response { vars.old.response ≡ None }
    ensures { OnOk result (vars.new ≡ record vars.old {
      body = state.now.body;
      response = state.now.response;
      tx = state.now.tx;
      captured = state.now.captured;
      matched = state.now.matched;
    }) }
{
    add_body(alloc, state.body, vars)?;
    add_response(alloc, &state.response, vars)?;
    copy_lists(state, vars)
}

fn copy_lists(state: &PlainState, vars: &mut Vars) -> Result<(), NoMemory>
    ensures { OnOk result (vars.new ≡ record vars.old {
      tx = state.now.tx;
      captured = state.now.captured;
      matched = state.now.matched;
    }) }
{
    let tx = state.tx.clone()?;
    let captured = state.captured.clone()?;
    let matched = state.matched.clone()?;
    vars.set_lists(tx, captured, matched);
    Ok(())
}

fn add_body(alloc: Global, body: Option<OpenedBody>, vars: &mut Vars) -> Result<(), NoMemory>
    requires { vars.old.body ≡ None }
    ensures { OnOk result (vars.new ≡ record vars.old { body = body }) }
{
    match body {
        Some(opened) => vars.add_body(alloc, opened.processor, opened.limit),
        None => Ok(()),
    }
}

fn add_response(
    alloc: Global,
    response: &Option<AddedResponse>,
    vars: &mut Vars,
) -> Result<(), NoMemory>
    requires { vars.old.response ≡ None }
    ensures { OnOk result (vars.new ≡ record vars.old { response = response.now }) }
{
    match response {
        Some(added) => {
            let response = added.response.clone()?;
            vars.add_response(alloc, response, added.with_body)
        }
        None => Ok(()),
    }
}

/// A macro with values in the places of its references.
pub(crate) fn expanded(alloc: Global, text: &Macro, state: &PlainState) -> Result<Bytes, NoMemory>
    ensures { IfOk result (λ bytes. bytes ≡ expansion (view_of state.now) text.now) }
{
    let vars = vars_of(alloc, state)?;
    let expanded = expand(alloc, &vars, text);
    drop(vars);
    expanded
}

/// The processor that opens the body now, if it is opened.
pub(crate) fn chosen_processor(alloc: Global, state: &PlainState) -> Result<Processor, NoMemory>
    ensures { IfOk result (λ processor. processor ≡ chosen_processor (view_of state.now)) }
{
    let vars = vars_of(alloc, state)?;
    let processor = vars.chosen_processor();
    drop(vars);
    Ok(processor)
}

// Adds a value where it is not the one before.
fn add_other(next: &Bytes, value: &[u8], out: &mut Seq<Bytes>) -> Result<(), NoMemory>
    ensures { OnOk result (out.new ≡ out.old ++ (if bytes_eq next.now value.now then [] else next.now ∷ [])) }
{
    if next.as_slice() == value {
        return Ok(());
    }
    out.push(next.clone()?)
}

// Adds what a transformation makes of a value, where it changes it, and answers it.
fn add_change(
    alloc: Global,
    transform: Transform,
    value: &[u8],
    out: &mut Seq<Bytes>,
) -> Result<Bytes, NoMemory>
    ensures next { IfOk result (λ next. next ≡ transformed transform value.now) }
    ensures out { OnOk result (out.new ≡ out.old ++ change transform value.now) }
{
    let next = apply(alloc, transform, value)?;
    add_other(&next, value, out)?;
    Ok(next)
}

fn add_changes(
    alloc: Global,
    transforms: &[Transform],
    value: &[u8],
    out: &mut Seq<Bytes>,
) -> Result<(), NoMemory>
    ensures { OnOk result (out.new ≡ out.old ++ changes transforms.now value.now) }
{
    let mut text = Bytes::copy(alloc, value)?;
    for transform in transforms {
        text = add_change(alloc, *transform, text.as_slice(), out)?;
    }
    Ok(())
}

fn before_chain(alloc: Global, link: &Link, value: &[u8]) -> Result<Seq<Bytes>, NoMemory>
    ensures { IfOk result (λ out. out ≡ before_chain link.now value.now) }
{
    let mut out = Seq::new(alloc);
    if link.multi {
        out.push(Bytes::copy(alloc, value)?)?;
        add_changes(alloc, link.transforms.as_slice(), value, &mut out)?;
    }
    Ok(out)
}

/// The values that are tested of one.
pub(crate) fn tested(alloc: Global, link: &Link, value: &[u8]) -> Result<Seq<Bytes>, NoMemory>
    ensures { IfOk result (λ out. out ≡ tested link.now value.now) }
{
    let mut out = before_chain(alloc, link, value)?;
    out.push(apply_chain(alloc, &link.transforms, value)?)?;
    Ok(out)
}
