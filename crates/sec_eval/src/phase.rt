ghost use Rattle.std.specs.Prelude.{◌≡◌, ◌+◌, ◌≤◌, ◌∷◌, List, ℕ, map, IfOk, OnOk};
ghost use Rattle.sec_ast.specs.declared.listing.Item.{Item as TheItem};
ghost use Rattle.sec_compile.specs.Links.{built_link, built_links};
ghost use Rattle.sec_eval.specs.Counting.{Continues, RunsTo, flow_by, rules_in};
ghost use Rattle.sec_meaning.specs.declared.state.Passing.{Passing as ThePassing};
ghost use Rattle.sec_meaning.specs.declared.state.PlainState.{PlainState as TheState};
ghost use Rattle.sec_meaning.specs.Effect.{effect};
ghost use Rattle.sec_meaning.specs.Phase.{Run, after, at_rule, follow, is_rejected, look, one_more, phase, walk, with_body};

use crate::State;
use crate::askers::{Askers, RuleAskers};
use crate::effect::effect;
use sec_ast::{Item, Listing, Rule, Verdict};
use sec_meaning::phase_number::{LOGGING, REQUEST_BODY, RESPONSE_HEADERS};
use sec_meaning::{After, Passing, RuleFlow, Transaction, at_marker, is_off, is_on, too_large};
use std::alloc::Global;
use std::sync::ledger::Ledger;
use waf_plain::{NoMemory, Steps};

/// How a phase ended: the transaction goes on, or is interrupted.
#[derive(Debug, PartialEq, Drop)]
pub enum Flow {
    Goes,
    Interrupted(Verdict),
}

fn follow(flow: RuleFlow, state: &mut State) -> Result<After, NoMemory>
    ensures { IfOk result (λ then. (n : ℕ) (rest : ThePassing → TheState → Run)
        → Continues n (follow state.old flow rest) n (after then state.new rest)) }
{
    match flow {
        RuleFlow::Next => Ok(After::GoOn(Passing::Looking)),
        RuleFlow::Skip(count) => Ok(After::GoOn(Passing::Skipping(count))),
        RuleFlow::SkipTo(label) => Ok(After::GoOn(Passing::Until(label))),
        RuleFlow::EndPhase => Ok(After::End(None)),
        RuleFlow::EndTo3 => {
            state.set_next_phase(RESPONSE_HEADERS);
            Ok(After::End(None))
        }
        RuleFlow::EndTo5 => {
            state.set_next_phase(LOGGING);
            Ok(After::End(None))
        }
        RuleFlow::Interrupt(verdict) => {
            state.interrupt(verdict.clone()?);
            Ok(After::End(Some(verdict)))
        }
    }
}

// Looks at a rule: one step.
fn look_at<L: Ledger>(
    alloc: Global,
    rule: &Rule,
    askers: &mut RuleAskers<'_>,
    state: &mut State,
    steps: &mut Steps<L>,
) -> Result<After, NoMemory>
    requires { askers.old ≡ map built_link rule.now.links }
    ensures same { askers.new ≡ askers.old }
    ensures ok { IfOk result (λ then. (rest : ThePassing → TheState → Run)
        → Continues steps.old (one_more (follow (effect rule.now state.old).0 (effect rule.now state.old).1 rest))
        steps.new (after then state.new rest)) }
    ensures most { steps.new ≡ steps.old + 1 }
{
    steps.tick();
    let flow = effect(alloc, rule, askers, state)?;
    follow(flow, state)
}

fn look<L: Ledger>(
    alloc: Global,
    rule: &Rule,
    askers: &mut RuleAskers<'_>,
    state: &mut State,
    steps: &mut Steps<L>,
) -> Result<After, NoMemory>
    requires { askers.old ≡ map built_link rule.now.links }
    ensures same { askers.new ≡ askers.old }
    ensures ok { IfOk result (λ then. (rest : ThePassing → TheState → Run)
        → Continues steps.old (look rule.now state.old rest) steps.new (after then state.new rest)) }
    ensures most { (rest : ThePassing → TheState → Run)
        → steps.new ≤ steps.old + (look rule.now state.old rest).looked }
{
    if is_off(state.engine()) {
        return Ok(After::End(None));
    }
    if state.is_removed(rule) {
        return Ok(After::GoOn(Passing::Looking));
    }
    look_at(alloc, rule, askers, state, steps)
}

fn at_rule<L: Ledger>(
    alloc: Global,
    passing: Passing,
    rule: &Rule,
    askers: &mut RuleAskers<'_>,
    state: &mut State,
    steps: &mut Steps<L>,
) -> Result<After, NoMemory>
    requires { askers.old ≡ map built_link rule.now.links }
    ensures same { askers.new ≡ askers.old }
    ensures ok { IfOk result (λ then. (rest : ThePassing → TheState → Run)
        → Continues steps.old (at_rule passing rule.now state.old rest) steps.new (after then state.new rest)) }
    ensures most { (rest : ThePassing → TheState → Run)
        → steps.new ≤ steps.old + (at_rule passing rule.now state.old rest).looked }
{
    match passing {
        Passing::Looking => look(alloc, rule, askers, state, steps),
        Passing::Skipping(count) => {
            if count == 0 {
                return look(alloc, rule, askers, state, steps);
            }
            Ok(After::GoOn(Passing::Skipping(count - 1)))
        }
        Passing::Until(label) => Ok(After::GoOn(Passing::Until(label))),
    }
}

fn at_item<L: Ledger>(
    alloc: Global,
    number: u8,
    item: &Item,
    askers: &mut RuleAskers<'_>,
    passing: Passing,
    state: &mut State,
    steps: &mut Steps<L>,
) -> Result<After, NoMemory>
    requires { askers.old ≡ built_links item.now }
    ensures same { askers.new ≡ askers.old }
    ensures ok { IfOk result (λ then. (left : List TheItem)
        → Continues steps.old (walk number (item.now ∷ left) passing state.old)
        steps.new (after then state.new (walk number left))) }
    ensures most { (left : List TheItem)
        → steps.new ≤ steps.old + (walk number (item.now ∷ left) passing state.old).looked }
{
    match item {
        Item::Marker(marker) => Ok(After::GoOn(at_marker(marker, passing))),
        Item::Rule(rule) => {
            if rule.phase == number {
                return at_rule(alloc, passing, rule, askers, state, steps);
            }
            Ok(After::GoOn(passing))
        }
    }
}

/// The items of a listing for one phase, of which these are the askers.
pub(crate) fn walk<L: Ledger>(
    alloc: Global,
    number: u8,
    items: &[Item],
    askers: &mut [RuleAskers<'_>],
    state: &mut State,
    steps: &mut Steps<L>,
) -> Result<Flow, NoMemory>
    requires { askers.old ≡ map built_links items.now }
    ensures same { askers.new ≡ askers.old }
    ensures ok { IfOk result
        (λ flow. RunsTo steps.old (walk number items.now Passing.Looking state.old) steps.new state.new flow) }
    ensures most { steps.new ≤ steps.old + (walk number items.now Passing.Looking state.old).looked }
{
    let mut passing = Passing::Looking;
    let mut place = 0;
    for item in items {
        let asker = &mut askers[place];
        match at_item(alloc, number, item, asker, passing, state, steps)? {
            After::GoOn(next) => passing = next,
            After::End(Some(verdict)) => return Ok(Flow::Interrupted(verdict)),
            After::End(None) => return Ok(Flow::Goes),
        }
        place += 1;
    }
    Ok(Flow::Goes)
}

fn is_rejected(listing: &Listing, state: &State) -> bool
    ensures { result ≡ is_rejected listing.now state.now }
{
    listing.limit_reject && is_on(state.engine()) && state.vars().is_body_over_limit()
}

// The phase of the request's body, once that is opened.
fn with_body<L: Ledger>(
    alloc: Global,
    askers: &mut Askers<'_>,
    state: &mut State,
    steps: &mut Steps<L>,
) -> Result<Flow, NoMemory>
    ensures ok { IfOk result (λ flow. RunsTo steps.old (with_body askers.old state.old) steps.new state.new flow) }
    ensures most { steps.new ≤ steps.old + (with_body askers.old state.old).looked }
    ensures same { askers.new ≡ askers.old }
{
    if is_rejected(askers.rules().listing(), state) {
        state.interrupt(too_large());
        return Ok(Flow::Interrupted(too_large()));
    }
    askers.walk(alloc, REQUEST_BODY, state, steps)
}

/// Runs the phase of that number over the state of a transaction, and says whether it interrupts. A
/// step is a rule that is looked at. After `NoMemory` the state is only dropped.
pub fn run_phase<L: Ledger>(
    alloc: Global,
    askers: &mut Askers<'_>,
    number: u8,
    state: &mut State,
    steps: &mut Steps<L>,
) -> Result<Flow, NoMemory>
    ensures flow { IfOk result (λ flow. flow ≡ flow_by (phase askers.old number state.old).verdict) }
    ensures state { OnOk result (state.new ≡ (phase askers.old number state.old).state) }
    ensures steps { OnOk result (steps.new ≡ steps.old + (phase askers.old number state.old).looked) }
    ensures most { steps.new ≤ steps.old + rules_in number askers.old.items }
    ensures same { askers.new ≡ askers.old }
{
    if number < state.next_phase() {
        return Ok(Flow::Goes);
    }
    if number == REQUEST_BODY {
        state.open_body(alloc, askers.rules().listing())?;
        return with_body(alloc, askers, state, steps);
    }
    askers.walk(alloc, number, state, steps)
}
