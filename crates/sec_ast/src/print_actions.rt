ghost use Rattle.std.specs.Prelude.{◌≡◌, ◌++◌, ◌∷◌, [], IfOk, OnOk, codes, map};
ghost use Rattle.sec_ast.specs.PrintMacros.{macro_text};
ghost use Rattle.sec_ast.specs.PrintActions.{change_of_setting, change_text, ctl_text, disrupt_text, if_not_empty, if_not_zero, if_set, if_there, link_pieces, log_text, number_piece, quoted_piece, range_text, rule_pieces, setvar_text, switch_text, transform_text};

use crate::action::{Change, Ctl, Disrupt, SetVar};
use crate::link::Link;
use crate::macros::Macro;
use crate::print_macros::put_macro;
use crate::print_texts::{behind, put_decimal, put_in_quotes};
use crate::rule::Rule;
use crate::transform::Transform;
use sec_text::characters::SINGLE_QUOTE;
use std::alloc::Global;
use waf_plain::{Bytes, NoMemory, Seq};

/// The actions that a rule's first link has before its own.
pub(crate) fn rule_pieces(alloc: Global, rule: &Rule) -> Result<Seq<Bytes>, NoMemory>
    ensures { IfOk result (λ pieces. pieces ≡ rule_pieces rule.now) }
{
    let mut pieces = Seq::new(alloc);
    add_rule(alloc, rule, &mut pieces)?;
    Ok(pieces)
}

#[tactic(auto, unfolding(crate::specs::PrintActions::rule_pieces))]
fn add_rule(alloc: Global, rule: &Rule, pieces: &mut Seq<Bytes>) -> Result<(), NoMemory>
    ensures { OnOk result (pieces.new ≡ pieces.old ++ rule_pieces rule.now) }
{
    add_head(alloc, rule, pieces)?;
    add_macro(alloc, b"msg:", &rule.msg, pieces)?;
    add_macro(alloc, b"logdata:", &rule.logdata, pieces)?;
    add_tags(alloc, &rule.tags, pieces)?;
    add_number(alloc, b"skip:", rule.skip, pieces)?;
    add_text(alloc, b"skipAfter:", &rule.skip_after, pieces)
}

fn add_head(alloc: Global, rule: &Rule, pieces: &mut Seq<Bytes>) -> Result<(), NoMemory>
    ensures { OnOk result (pieces.new ≡ pieces.old ++
        number_piece (codes "id:") rule.now.id ∷ number_piece (codes "phase:") rule.now.phase ∷
        disrupt_text rule.now.disrupt ∷ if_not_zero (codes "status:") rule.now.status ++
        log_text rule.now.log ∷ []) }
{
    pieces.push(number_piece(alloc, b"id:", u64::from(rule.id))?)?;
    pieces.push(number_piece(alloc, b"phase:", u64::from(rule.phase))?)?;
    pieces.push(disrupt_text(alloc, &rule.disrupt)?)?;
    add_number(alloc, b"status:", rule.status, pieces)?;
    pieces.push(Bytes::copy(alloc, log_text(rule.log))?)
}

/// Adds a link's own actions; `follows`: another link stands behind it.
#[tactic(auto, unfolding(crate::specs::PrintActions::link_pieces))]
pub(crate) fn add_link(
    alloc: Global,
    link: &Link,
    follows: bool,
    pieces: &mut Seq<Bytes>,
) -> Result<(), NoMemory>
    ensures { OnOk result (pieces.new ≡ pieces.old ++ link_pieces link.now follows) }
{
    add_transforms(alloc, &link.transforms, pieces)?;
    add_flag(alloc, b"capture", link.capture, pieces)?;
    add_flag(alloc, b"multiMatch", link.multi, pieces)?;
    add_setvars(alloc, &link.setvars, pieces)?;
    add_ctls(alloc, &link.ctls, pieces)?;
    add_flag(alloc, b"chain", follows, pieces)
}

fn number_piece(alloc: Global, label: &[u8], number: u64) -> Result<Bytes, NoMemory>
    ensures { IfOk result (λ bytes. bytes ≡ number_piece label.now number) }
{
    let mut out = Bytes::copy(alloc, label)?;
    put_decimal(number, &mut out)?;
    Ok(out)
}

fn quoted_piece(alloc: Global, label: &[u8], text: &[u8]) -> Result<Bytes, NoMemory>
    ensures { IfOk result (λ bytes. bytes ≡ quoted_piece label.now text.now) }
{
    let mut out = Bytes::copy(alloc, label)?;
    put_in_quotes(SINGLE_QUOTE, text, &mut out)?;
    Ok(out)
}

fn macro_piece(alloc: Global, label: &[u8], text: &Macro) -> Result<Bytes, NoMemory>
    ensures { IfOk result (λ bytes. bytes ≡ quoted_piece label.now (macro_text text.now)) }
{
    let mut written = Bytes::new(alloc);
    put_macro(text, &mut written)?;
    quoted_piece(alloc, label, written.as_slice())
}

fn add_number(
    alloc: Global,
    label: &[u8],
    number: u32,
    pieces: &mut Seq<Bytes>,
) -> Result<(), NoMemory>
    ensures { OnOk result (pieces.new ≡ pieces.old ++ if_not_zero label.now number) }
{
    if number == 0 {
        return Ok(());
    }
    pieces.push(number_piece(alloc, label, u64::from(number))?)
}

fn add_macro(
    alloc: Global,
    label: &[u8],
    text: &Macro,
    pieces: &mut Seq<Bytes>,
) -> Result<(), NoMemory>
    ensures { OnOk result (pieces.new ≡ pieces.old ++ if_not_empty label.now text.now) }
{
    if text.is_empty() {
        return Ok(());
    }
    pieces.push(macro_piece(alloc, label, text)?)
}

fn add_text(
    alloc: Global,
    label: &[u8],
    text: &Option<Bytes>,
    pieces: &mut Seq<Bytes>,
) -> Result<(), NoMemory>
    ensures { OnOk result (pieces.new ≡ pieces.old ++ if_there label.now text.now) }
{
    let Some(text) = text else {
        return Ok(());
    };
    pieces.push(quoted_piece(alloc, label, text.as_slice())?)
}

fn add_flag(
    alloc: Global,
    name: &[u8],
    is_set: bool,
    pieces: &mut Seq<Bytes>,
) -> Result<(), NoMemory>
    ensures { OnOk result (pieces.new ≡ pieces.old ++ if_set name.now is_set) }
{
    if !is_set {
        return Ok(());
    }
    pieces.push(Bytes::copy(alloc, name)?)
}

fn add_tags(alloc: Global, tags: &Seq<Bytes>, pieces: &mut Seq<Bytes>) -> Result<(), NoMemory>
    ensures { OnOk result (pieces.new ≡ pieces.old ++ map (quoted_piece (codes "tag:")) tags.now) }
{
    for tag in tags.as_slice() {
        pieces.push(quoted_piece(alloc, b"tag:", tag.as_slice())?)?;
    }
    Ok(())
}

fn add_transforms(
    alloc: Global,
    transforms: &Seq<Transform>,
    pieces: &mut Seq<Bytes>,
) -> Result<(), NoMemory>
    ensures { OnOk result (pieces.new ≡ pieces.old ++ map transform_text transforms.now) }
{
    for transform in transforms.as_slice() {
        pieces.push(behind(alloc, b"t:", transform.name())?)?;
    }
    Ok(())
}

fn add_setvars(
    alloc: Global,
    setvars: &Seq<SetVar>,
    pieces: &mut Seq<Bytes>,
) -> Result<(), NoMemory>
    ensures { OnOk result (pieces.new ≡ pieces.old ++ map setvar_text setvars.now) }
{
    for setvar in setvars.as_slice() {
        pieces.push(setvar_text(alloc, setvar)?)?;
    }
    Ok(())
}

fn add_ctls(alloc: Global, ctls: &Seq<Ctl>, pieces: &mut Seq<Bytes>) -> Result<(), NoMemory>
    ensures { OnOk result (pieces.new ≡ pieces.old ++ map ctl_text ctls.now) }
{
    for ctl in ctls.as_slice() {
        pieces.push(ctl_text(alloc, ctl)?)?;
    }
    Ok(())
}

fn disrupt_text(alloc: Global, disrupt: &Disrupt) -> Result<Bytes, NoMemory>
    ensures { IfOk result (λ bytes. bytes ≡ disrupt_text disrupt.now) }
{
    match disrupt {
        Disrupt::Pass => Bytes::copy(alloc, b"pass"),
        Disrupt::Deny => Bytes::copy(alloc, b"deny"),
        Disrupt::Drop => Bytes::copy(alloc, b"drop"),
        Disrupt::Redirect(location) => macro_piece(alloc, b"redirect:", location),
        Disrupt::Allow => Bytes::copy(alloc, b"allow"),
        Disrupt::AllowPhase => Bytes::copy(alloc, b"allow:phase"),
        Disrupt::AllowRequest => Bytes::copy(alloc, b"allow:request"),
    }
}

fn log_text(is_logged: bool) -> &'static [u8]
    ensures { result.now ≡ log_text is_logged }
{
    if is_logged { b"log" } else { b"nolog" }
}

fn setvar_text(alloc: Global, setvar: &SetVar) -> Result<Bytes, NoMemory>
    ensures { IfOk result (λ bytes. bytes ≡ setvar_text setvar.now) }
{
    let mut text = Bytes::new(alloc);
    put_change(&setvar.name, &setvar.change, &mut text)?;
    quoted_piece(alloc, b"setvar:", text.as_slice())
}

fn put_change(name: &Macro, change: &Change, out: &mut Bytes) -> Result<(), NoMemory>
    ensures { OnOk result (out.new ≡ out.old ++ change_text (macro_text name.now) change.now) }
{
    match change {
        Change::Put(value) => put_assignment(name, b"=", value, out),
        Change::Add(value) => put_assignment(name, b"=+", value, out),
        Change::Sub(value) => put_assignment(name, b"=-", value, out),
        Change::Delete => put_deletion(name, out),
    }
}

fn put_assignment(name: &Macro, sign: &[u8], value: &Macro, out: &mut Bytes) -> Result<(), NoMemory>
    ensures { OnOk result (out.new ≡
        out.old ++ codes "tx." ++ macro_text name.now ++ sign.now ++ macro_text value.now) }
{
    out.append(b"tx.")?;
    put_macro(name, out)?;
    out.append(sign)?;
    put_macro(value, out)
}

fn put_deletion(name: &Macro, out: &mut Bytes) -> Result<(), NoMemory>
    ensures { OnOk result (out.new ≡ out.old ++ codes "!tx." ++ macro_text name.now) }
{
    out.append(b"!tx.")?;
    put_macro(name, out)
}

fn ctl_text(alloc: Global, ctl: &Ctl) -> Result<Bytes, NoMemory>
    ensures { IfOk result (λ bytes. bytes ≡ ctl_text ctl.now) }
{
    let text = change_of_setting(alloc, ctl)?;
    quoted_piece(alloc, b"ctl:", text.as_slice())
}

fn change_of_setting(alloc: Global, ctl: &Ctl) -> Result<Bytes, NoMemory>
    ensures { IfOk result (λ bytes. bytes ≡ change_of_setting ctl.now) }
{
    match ctl {
        Ctl::Engine(engine) => behind(alloc, b"ruleEngine=", engine.name()),
        Ctl::RequestBody(is_read) => behind(alloc, b"requestBodyAccess=", switch_text(*is_read)),
        Ctl::ResponseBody(is_read) => behind(alloc, b"responseBodyAccess=", switch_text(*is_read)),
        Ctl::Body(processor) => behind(alloc, b"requestBodyProcessor=", processor.name()),
        Ctl::RemoveById(first, last) => removal(alloc, *first, *last),
        Ctl::RemoveByTag(tag) => behind(alloc, b"ruleRemoveByTag=", tag.as_slice()),
    }
}

pub(crate) fn switch_text(is_on: bool) -> &'static [u8]
    ensures { result.now ≡ switch_text is_on }
{
    if is_on { b"On" } else { b"Off" }
}

fn removal(alloc: Global, first: u32, last: u32) -> Result<Bytes, NoMemory>
    ensures { IfOk result (λ bytes. bytes ≡ change_of_setting (Ctl.RemoveById first last)) }
{
    let mut out = Bytes::copy(alloc, b"ruleRemoveById=")?;
    put_range(first, last, &mut out)?;
    Ok(out)
}

fn put_range(first: u32, last: u32, out: &mut Bytes) -> Result<(), NoMemory>
    ensures { OnOk result (out.new ≡ out.old ++ range_text first last) }
{
    put_decimal(u64::from(first), out)?;
    if first == last {
        return Ok(());
    }
    out.append(b"-")?;
    put_decimal(u64::from(last), out)
}
