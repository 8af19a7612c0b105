ghost use Rattle.std.specs.Prelude.{◌≡◌, IfOk, OnOk};
ghost use Rattle.sec_collect.specs.Expansion.{expansion};
ghost use Rattle.sec_meaning.specs.Effect.{denial_status, disruption, effect, flow_of, interruption, is_on, logged, matched_effect, redirect_status, skip_of};
ghost use Rattle.sec_meaning.specs.Links.{after_links};
ghost use Rattle.sec_meaning.specs.State.{view_of};

use crate::links::after_links;
use crate::phase_number::{REQUEST_BODY, RESPONSE_BODY};
use crate::status::{
    FORBIDDEN, FOUND, MOVED_PERMANENTLY, PERMANENT_REDIRECT, SEE_OTHER, TEMPORARY_REDIRECT,
};
use crate::{PlainState, RuleFlow, Transaction};
use sec_ast::{Disrupt, Engine, LogLine, Macro, Rule, Verdict, VerdictAct};
use std::alloc::Global;
use waf_plain::{Bytes, NoMemory};

fn text<S: Transaction>(alloc: Global, text: &Macro, state: &S) -> Result<Bytes, NoMemory>
    ensures { IfOk result (λ bytes. bytes ≡ expansion (view_of (S.seen state.now)) text.now) }
{
    state.expanded(alloc, text)?.into_bytes(alloc)
}

fn logged<S: Transaction>(alloc: Global, rule: &Rule, state: &mut S) -> Result<(), NoMemory>
    ensures { OnOk result (S.seen state.new ≡ logged rule.now (S.seen state.old)) }
{
    if rule.log {
        let msg = text(alloc, &rule.msg, state)?;
        let detail = text(alloc, &rule.logdata, state)?;
        state.add_line(LogLine {
            rule: rule.id,
            msg,
            detail,
        })?;
    }
    Ok(())
}

// Where a rule that matched goes on when it does not disrupt.
fn skip_of(rule: &Rule) -> Result<RuleFlow, NoMemory>
    ensures { IfOk result (λ flow. flow ≡ skip_of rule.now.skip_after rule.now.skip) }
{
    match &rule.skip_after {
        Some(label) => {
            let label = label.clone()?;
            Ok(RuleFlow::SkipTo(label))
        }
        None if rule.skip == 0 => Ok(RuleFlow::Next),
        None => Ok(RuleFlow::Skip(rule.skip)),
    }
}

// The status that a rule denies with, for the one that it names, 0 where it names none.
fn denial_status(status: u32) -> u32
    ensures { result ≡ denial_status status }
{
    if status == 0 { FORBIDDEN } else { status }
}

// The status that a rule redirects with, for the one that it names (RFC 9110, 15.4).
fn redirect_status(status: u32) -> u32
    ensures { result ≡ redirect_status status }
{
    if status == MOVED_PERMANENTLY
        || status == FOUND
        || status == SEE_OTHER
        || status == TEMPORARY_REDIRECT
        || status == PERMANENT_REDIRECT
    {
        status
    } else {
        FOUND
    }
}

// A rule's verdict, as a flow.
fn interruption(rule: &Rule, act: VerdictAct, status: u32) -> RuleFlow
    ensures { result ≡ interruption rule.now act status }
{
    RuleFlow::Interrupt(Verdict {
        rule: rule.id,
        act,
        status,
    })
}

fn redirect<S: Transaction>(
    alloc: Global,
    rule: &Rule,
    location: &Macro,
    state: &S,
) -> Result<RuleFlow, NoMemory>
    ensures { IfOk result (λ flow. flow ≡ interruption rule.now
        (VerdictAct.Redirect (expansion (view_of (S.seen state.now)) location.now))
        (redirect_status rule.now.status)) }
{
    let location = text(alloc, location, state)?;
    Ok(interruption(
        rule,
        VerdictAct::Redirect(location),
        redirect_status(rule.status),
    ))
}

fn disruption<S: Transaction>(alloc: Global, rule: &Rule, state: &S) -> Result<RuleFlow, NoMemory>
    ensures { IfOk result (λ flow. flow ≡ disruption rule.now.disrupt rule.now (S.seen state.now)) }
{
    match &rule.disrupt {
        Disrupt::Pass => skip_of(rule),
        Disrupt::Deny => Ok(interruption(rule, VerdictAct::Deny, denial_status(rule.status))),
        Disrupt::Drop => Ok(interruption(rule, VerdictAct::Drop, denial_status(rule.status))),
        Disrupt::Redirect(location) => redirect(alloc, rule, location, state),
        Disrupt::Allow => Ok(RuleFlow::EndTo5),
        Disrupt::AllowPhase => Ok(RuleFlow::EndPhase),
        Disrupt::AllowRequest => Ok(if rule.phase <= REQUEST_BODY {
            RuleFlow::EndTo3
        } else {
            RuleFlow::EndPhase
        }),
    }
}

/// Whether disruptive actions act.
pub fn is_on(engine: Engine) -> bool
    ensures { result ≡ is_on engine }
{
    match engine {
        Engine::On => true,
        Engine::Off => false,
        Engine::DetectionOnly => false,
    }
}

fn flow_of<S: Transaction>(alloc: Global, rule: &Rule, state: &S) -> Result<RuleFlow, NoMemory>
    ensures { IfOk result (λ flow. flow ≡ flow_of rule.now (S.seen state.now)) }
{
    if is_on(state.engine()) && rule.phase <= RESPONSE_BODY {
        disruption(alloc, rule, state)
    } else {
        skip_of(rule)
    }
}

/// What a rule does after its links: it logs and acts where each of them holds.
pub fn matched_effect<S: Transaction>(
    alloc: Global,
    rule: &Rule,
    holds: bool,
    state: &mut S,
) -> Result<RuleFlow, NoMemory>
    ensures flow { IfOk result (λ flow. flow ≡ (matched_effect rule.now (holds, S.seen state.old)).1) }
    ensures state { OnOk result (S.seen state.new ≡ (matched_effect rule.now (holds, S.seen state.old)).0) }
{
    if !holds {
        return Ok(RuleFlow::Next);
    }
    logged(alloc, rule, state)?;
    flow_of(alloc, rule, state)
}

/// Looks at a rule.
pub(crate) fn effect(
    alloc: Global,
    rule: &Rule,
    state: &mut PlainState,
) -> Result<RuleFlow, NoMemory>
    ensures flow { IfOk result (λ flow. flow ≡ (effect rule.now state.old).1) }
    ensures state { OnOk result (state.new ≡ (effect rule.now state.old).0) }
{
    let holds = after_links(alloc, rule.links.as_slice(), state)?;
    matched_effect(alloc, rule, holds, state)
}
