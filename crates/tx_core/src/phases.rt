ghost use Rattle.std.specs.Prelude.{◌≡◌, ◌+◌, ◌≤◌, IfOk, OnOk};
ghost use Rattle.sec_eval.specs.Counting.{rules_in};
ghost use Rattle.sec_meaning.specs.Judgement.{two_phases};
ghost use Rattle.sec_meaning.specs.Phase.{phase};
ghost use Rattle.sec_meaning.specs.declared.phase_number.TheConstants.{RESPONSE_HEADERS, RESPONSE_BODY, LOGGING};
ghost use Rattle.tx_core.specs.Later.{FollowsAs};

use crate::Ended;
use sec_ast::{LogLine, Verdict};
use sec_compile::Ruleset;
use sec_eval::{Askers, Flow, State, run_phase};
use sec_meaning::phase_number::{LOGGING, RESPONSE_BODY, RESPONSE_HEADERS};
use std::alloc::Global;
use std::sync::ledger::Ledger;
use waf_plain::{NoMemory, Seq, Steps};
use web_parts::Response;

/// Runs two phases, the second of them where the first does not interrupt.
pub(crate) fn two_phases<L: Ledger>(
    alloc: Global,
    askers: &mut Askers<'_>,
    one: u8,
    other: u8,
    state: &mut State,
    steps: &mut Steps<L>,
) -> Result<Option<Verdict>, NoMemory>
    ensures verdict { IfOk result (λ verdict. verdict ≡ (two_phases askers.old one other state.old).verdict) }
    ensures state { OnOk result (state.new ≡ (two_phases askers.old one other state.old).state) }
    ensures most { steps.new ≤ steps.old + (rules_in one askers.old.items + rules_in other askers.old.items) }
    ensures same { askers.new ≡ askers.old }
{
    match run_phase(alloc, askers, one, state, steps)? {
        Flow::Interrupted(verdict) => Ok(Some(verdict)),
        Flow::Goes => match run_phase(alloc, askers, other, state, steps)? {
            Flow::Interrupted(verdict) => Ok(Some(verdict)),
            Flow::Goes => Ok(None),
        },
    }
}

/// Runs the logging phase, which ends a transaction, and takes the lines that stand then.
pub(crate) fn last_lines<L: Ledger>(
    alloc: Global,
    askers: &mut Askers<'_>,
    state: &mut State,
    steps: &mut Steps<L>,
) -> Result<Seq<LogLine>, NoMemory>
    ensures lines { IfOk result (λ lines. lines ≡ (phase askers.old LOGGING state.old).state.lines) }
    ensures most { steps.new ≤ steps.old + rules_in LOGGING askers.old.items }
    ensures same { askers.new ≡ askers.old }
{
    run_phase(alloc, askers, LOGGING, state, steps)?;
    Ok(state.take_lines(alloc))
}

/// Runs the logging phase of a half, and takes its lines.
pub(crate) fn retired_lines<L: Ledger>(
    alloc: Global,
    rules: &Ruleset,
    state: &mut State,
    steps: &mut Steps<L>,
) -> Result<Seq<LogLine>, NoMemory>
    ensures lines { IfOk result (λ lines. lines ≡ (phase rules.now LOGGING state.old).state.lines) }
    ensures most { steps.new ≤ steps.old + rules_in LOGGING rules.now.items }
{
    let mut askers = Askers::new(alloc, rules)?;
    last_lines(alloc, &mut askers, state, steps)
}

/// Runs the phases of the response, and the logging phase after them.
pub(crate) fn judge_response<L: Ledger>(
    alloc: Global,
    rules: &Ruleset,
    response: Response,
    state: &mut State,
    steps: &mut Steps<L>,
) -> Result<Ended, NoMemory>
    ensures follows { IfOk result (λ ended. FollowsAs rules.now response state.old ended) }
    ensures most { steps.new ≤ steps.old
        + (rules_in RESPONSE_HEADERS rules.now.items + rules_in RESPONSE_BODY rules.now.items
        + rules_in LOGGING rules.now.items) }
{
    state.answer(alloc, response)?;
    let mut askers = Askers::new(alloc, rules)?;
    let verdict = two_phases(
        alloc,
        &mut askers,
        RESPONSE_HEADERS,
        RESPONSE_BODY,
        state,
        steps,
    )?;
    let lines = last_lines(alloc, &mut askers, state, steps)?;
    Ok(Ended { verdict, lines })
}
