ghost use Rattle.std.specs.Prelude.{◌≡◌, ◌∷◌, IfOk, IfErr, OnOk, List, None};
ghost use Rattle.std.specs.List.{list_any};
ghost use Rattle.std.specs.Str.{bytes_eq};
ghost use Rattle.sec_collect.specs.Body.{is_longer};
ghost use Rattle.sec_compile.specs.Unread.{IsFault, first_fault};
ghost use Rattle.sec_ast.specs.declared.listing.Item.{Item as TheItem};
ghost use Rattle.sec_meaning.specs.declared.state.Passing.{Passing as ThePassing};
ghost use Rattle.sec_meaning.specs.declared.state.PlainState.{PlainState as TheState};
ghost use Rattle.sec_meaning.specs.Effect.{effect};
ghost use Rattle.sec_meaning.specs.Phase.{Run, EndsAs, after, at_marker, at_rule, follow, is_named_by, is_off, is_rejected, is_removed, look, opened, phase, too_large, walk, with_body};

use crate::effect::{effect, is_on};
use crate::phase_number::{LOGGING, REQUEST_BODY, RESPONSE_HEADERS};
use crate::status::CONTENT_TOO_LARGE;
use crate::values::chosen_processor;
use crate::{After, Passing, PlainFault, PlainState, Removed, RuleFlow};
use sec_ast::{Engine, Item, Listing, Rule, Verdict, VerdictAct};
use sec_collect::OpenedBody;
use sec_compile::build_items;
use std::alloc::Global;
use waf_plain::{Bytes, NoMemory};

/// Whether no rule is looked at.
pub fn is_off(engine: Engine) -> bool
    ensures { result ≡ is_off engine }
{
    match engine {
        Engine::On => false,
        Engine::Off => true,
        Engine::DetectionOnly => false,
    }
}

/// Whether a rule is among those that are passed over.
pub fn is_named_by(rule: &Rule, removed: &Removed) -> bool
    ensures { result ≡ is_named_by rule.now removed.now }
{
    match removed {
        Removed::Ids(first, last) => *first <= rule.id && rule.id <= *last,
        Removed::Tag(tag) => has_tag(rule.tags.as_slice(), tag),
    }
}

fn has_tag(tags: &[Bytes], tag: &Bytes) -> bool
    ensures { result ≡ list_any (bytes_eq tag.now) tags.now }
{
    tags.iter().any(|one| tag.as_slice() == one.as_slice())
}

fn is_removed(rule: &Rule, state: &PlainState) -> bool
    ensures { result ≡ is_removed rule.now state.now }
{
    state
        .removed_rules
        .as_slice()
        .iter()
        .any(|removed| is_named_by(rule, removed))
}

fn follow(flow: RuleFlow, state: &mut PlainState) -> Result<After, NoMemory>
    ensures { IfOk result (λ then. (rest : ThePassing → TheState → Run)
        → EndsAs (follow state.old flow rest) (after then state.new rest)) }
{
    match flow {
        RuleFlow::Next => Ok(After::GoOn(Passing::Looking)),
        RuleFlow::Skip(count) => Ok(After::GoOn(Passing::Skipping(count))),
        RuleFlow::SkipTo(label) => Ok(After::GoOn(Passing::Until(label))),
        RuleFlow::EndPhase => Ok(After::End(None)),
        RuleFlow::EndTo3 => {
            state.next_phase = RESPONSE_HEADERS;
            Ok(After::End(None))
        }
        RuleFlow::EndTo5 => {
            state.next_phase = LOGGING;
            Ok(After::End(None))
        }
        RuleFlow::Interrupt(verdict) => {
            state.verdict = Some(verdict.clone()?);
            Ok(After::End(Some(verdict)))
        }
    }
}

fn look(alloc: Global, rule: &Rule, state: &mut PlainState) -> Result<After, NoMemory>
    ensures { IfOk result (λ then. (rest : ThePassing → TheState → Run)
        → EndsAs (look rule.now state.old rest) (after then state.new rest)) }
{
    if is_off(state.engine) {
        return Ok(After::End(None));
    }
    if is_removed(rule, state) {
        return Ok(After::GoOn(Passing::Looking));
    }
    let flow = effect(alloc, rule, state)?;
    follow(flow, state)
}

fn at_rule(
    alloc: Global,
    passing: Passing,
    rule: &Rule,
    state: &mut PlainState,
) -> Result<After, NoMemory>
    ensures { IfOk result (λ then. (rest : ThePassing → TheState → Run)
        → EndsAs (at_rule passing rule.now state.old rest) (after then state.new rest)) }
{
    match passing {
        Passing::Looking => look(alloc, rule, state),
        Passing::Skipping(count) => {
            if count == 0 {
                return look(alloc, rule, state);
            }
            Ok(After::GoOn(Passing::Skipping(count - 1)))
        }
        Passing::Until(label) => Ok(After::GoOn(Passing::Until(label))),
    }
}

/// What a phase passes over after a marker of this label.
pub fn at_marker(marker: &Bytes, passing: Passing) -> Passing
    ensures { result ≡ at_marker marker.now passing }
{
    match passing {
        Passing::Looking => Passing::Looking,
        Passing::Skipping(count) => Passing::Skipping(count),
        Passing::Until(label) => {
            if marker.as_slice() == label.as_slice() {
                Passing::Looking
            } else {
                Passing::Until(label)
            }
        }
    }
}

fn at_item(
    alloc: Global,
    number: u8,
    item: &Item,
    passing: Passing,
    state: &mut PlainState,
) -> Result<After, NoMemory>
    ensures { IfOk result (λ then. (left : List TheItem)
        → EndsAs (walk number (item.now ∷ left) passing state.old) (after then state.new (walk number left))) }
{
    match item {
        Item::Marker(marker) => Ok(After::GoOn(at_marker(marker, passing))),
        Item::Rule(rule) => {
            if rule.phase == number {
                return at_rule(alloc, passing, rule, state);
            }
            Ok(After::GoOn(passing))
        }
    }
}

fn walk(
    alloc: Global,
    number: u8,
    items: &[Item],
    state: &mut PlainState,
) -> Result<Option<Verdict>, NoMemory>
    ensures { IfOk result (λ verdict. EndsAs (walk number items.now Passing.Looking state.old)
        (record { state = state.new; verdict = verdict; looked = 0 })) }
{
    let mut passing = Passing::Looking;
    for item in items {
        match at_item(alloc, number, item, passing, state)? {
            After::GoOn(next) => passing = next,
            After::End(verdict) => return Ok(verdict),
        }
    }
    Ok(None)
}

fn open_body(alloc: Global, listing: &Listing, state: &mut PlainState) -> Result<(), NoMemory>
    ensures { OnOk result (state.new ≡ opened listing.now state.old) }
{
    if state.request_body {
        let processor = chosen_processor(alloc, state)?;
        state.body = Some(OpenedBody {
            processor,
            limit: listing.request_limit,
        });
    }
    Ok(())
}

fn is_longer(state: &PlainState) -> bool
    ensures { result ≡ is_longer state.now.request.body state.now.body }
{
    match state.body {
        Some(opened) => opened.limit < state.request.body.len() as u64,
        None => false,
    }
}

fn is_rejected(listing: &Listing, state: &PlainState) -> bool
    ensures { result ≡ is_rejected listing.now state.now }
{
    is_longer(state) && listing.limit_reject && is_on(state.engine)
}

/// The verdict on a body over the limit: Content Too Large (RFC 9110, 15.5.14), by no rule.
pub fn too_large() -> Verdict
    ensures { result ≡ too_large }
{
    Verdict {
        rule: 0,
        act: VerdictAct::Deny,
        status: CONTENT_TOO_LARGE,
    }
}

fn with_body(
    alloc: Global,
    listing: &Listing,
    state: &mut PlainState,
) -> Result<Option<Verdict>, NoMemory>
    ensures { IfOk result (λ verdict. EndsAs (with_body listing.now state.old)
        (record { state = state.new; verdict = verdict; looked = 0 })) }
{
    if is_rejected(listing, state) {
        state.verdict = Some(too_large());
        return Ok(Some(too_large()));
    }
    walk(alloc, REQUEST_BODY, listing.items.as_slice(), state)
}

/// Runs a phase in place, and answers its verdict.
pub(crate) fn run(
    alloc: Global,
    listing: &Listing,
    number: u8,
    state: &mut PlainState,
) -> Result<Option<Verdict>, NoMemory>
    ensures verdict { IfOk result (λ verdict. verdict ≡ (phase listing.now number state.old).verdict) }
    ensures state { OnOk result (state.new ≡ (phase listing.now number state.old).state) }
{
    if number < state.next_phase {
        return Ok(None);
    }
    if number == REQUEST_BODY {
        open_body(alloc, listing, state)?;
        return with_body(alloc, listing, state);
    }
    walk(alloc, number, listing.items.as_slice(), state)
}

/// The state after a phase.
pub fn plain_phase(
    alloc: Global,
    listing: &Listing,
    number: u8,
    state: &PlainState,
) -> Result<PlainState, PlainFault>
    ensures after { IfOk result (λ after. after ≡ (phase listing.now number state.now).state) }
    ensures read { OnOk result (first_fault listing.now.items ≡ None) }
    ensures bad { IfErr result (λ fault. IsFault fault (first_fault listing.now.items)) }
{
    // For its fault alone: each operator is built again where its link is looked at.
    build_items(alloc, listing.items.as_slice())?;
    match state_after(alloc, listing, number, state) {
        Ok(after) => Ok(after),
        Err(NoMemory) => Err(PlainFault::NoMemory),
    }
}

fn state_after(
    alloc: Global,
    listing: &Listing,
    number: u8,
    state: &PlainState,
) -> Result<PlainState, NoMemory>
    ensures { IfOk result (λ after. after ≡ (phase listing.now number state.now).state) }
{
    let mut after = state.clone()?;
    match run(alloc, listing, number, &mut after) {
        Ok(_) => Ok(after),
        Err(NoMemory) => {
            drop(after);
            Err(NoMemory)
        }
    }
}
