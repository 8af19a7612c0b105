ghost use Rattle.std.specs.Prelude.{◌≡◌, ◌+◌, ◌≤◌, IfOk};
ghost use Rattle.std.specs.Arc.{arc_value};
ghost use Rattle.sec_eval.specs.Counting.{rules_in};
ghost use Rattle.sec_meaning.specs.declared.phase_number.TheConstants.{REQUEST_HEADERS, REQUEST_BODY, RESPONSE_HEADERS, RESPONSE_BODY, LOGGING};
ghost use Rattle.tx_core.specs.Halves.{BeginsAs, EndsAs, RetiresAs};

use crate::RulesInUse;
use crate::phases::{judge_response, last_lines, retired_lines, two_phases};
use sec_ast::{LogLine, Verdict};
use sec_compile::Ruleset;
use sec_eval::{Askers, State};
use sec_meaning::phase_number::{REQUEST_BODY, REQUEST_HEADERS};
use std::alloc::Global;
use std::marker::Model;
use std::sync::Arc;
use std::sync::ledger::Ledger;
use waf_plain::{NoMemory, Seq, Steps};
use web_parts::{Request, Response};

/// A transaction whose request was judged and not interrupted. It keeps its own rules: those that are
/// published while it waits for its response play no part in it.
#[derive(Drop)]
pub struct Half {
    rules: Arc<Ruleset, Global>,
    generation: u64,
    state: State,
}

impl Model for Half {
    ghost use Rattle.tx_core.specs.HalfView.{HalfView};

    ghost Value = { HalfView };

    ghost use Rattle.tx_core.specs.Standing.{Stands, seen_half};

    ghost view = { seen_half };

    ghost invariant = { Stands };
}

/// What judging a request comes to, with the lines that it logged.
#[derive(Drop)]
pub enum Begun {
    /// A rule interrupted, or the request's body is too long. The transaction is over, and its logging
    /// phase is among the lines.
    Interrupted {
        verdict: Verdict,
        lines: Seq<LogLine>,
    },
    Goes {
        half: Half,
        lines: Seq<LogLine>,
    },
}

/// What judging a response comes to, with the lines that were logged since the request's.
#[derive(Debug, PartialEq, Drop)]
pub struct Ended {
    pub verdict: Option<Verdict>,
    pub lines: Seq<LogLine>,
}

impl Half {
    /// The generation of its rules, as it was handed in.
    pub fn generation(&self) -> u64
        ensures { result ≡ self.now.generation }
    {
        self.generation
    }

    /// The request, as it was handed in.
    pub fn request(&self) -> &Request
        ensures { result.now ≡ self.now.request }
    {
        self.state.vars().request()
    }
}

/// Judges a request: its two phases, and where they interrupt the logging phase.
pub fn begin<L: Ledger>(
    alloc: Global,
    rules: Arc<Ruleset, Global>,
    generation: u64,
    request: Request,
    steps: &mut Steps<L>,
) -> Result<Begun, NoMemory>
    ensures begins { IfOk result (λ begun. BeginsAs (arc_value rules) generation request begun) }
    ensures most { steps.new ≤ steps.old
        + (rules_in REQUEST_HEADERS (arc_value rules).items + rules_in REQUEST_BODY (arc_value rules).items
        + rules_in LOGGING (arc_value rules).items) }
{
    let mut in_use = match RulesInUse::new(alloc, &rules) {
        Ok(in_use) => in_use,
        Err(NoMemory) => {
            drop(request);
            return Err(NoMemory);
        }
    };
    let begun = in_use.begin(alloc, generation, request, steps);
    drop(in_use);
    begun
}

/// Judges a request by a rule set, of which these are the askers.
pub(crate) fn begin_by<L: Ledger>(
    alloc: Global,
    rules: Arc<Ruleset, Global>,
    askers: &mut Askers<'_>,
    generation: u64,
    request: Request,
    steps: &mut Steps<L>,
) -> Result<Begun, NoMemory>
    requires { askers.old ≡ arc_value rules }
    ensures begins { IfOk result (λ begun. BeginsAs (arc_value rules) generation request begun) }
    ensures most { steps.new ≤ steps.old
        + (rules_in REQUEST_HEADERS (arc_value rules).items + rules_in REQUEST_BODY (arc_value rules).items
        + rules_in LOGGING (arc_value rules).items) }
    ensures same { askers.new ≡ askers.old }
{
    let mut state = State::start(alloc, &rules, request)?;
    match two_phases(
        alloc,
        askers,
        REQUEST_HEADERS,
        REQUEST_BODY,
        &mut state,
        steps,
    ) {
        Ok(None) => {
            let lines = state.take_lines(alloc);
            let half = Half {
                rules,
                generation,
                state,
            };
            Ok(Begun::Goes { half, lines })
        }
        Ok(Some(verdict)) => {
            let lines = last_lines(alloc, askers, &mut state, steps);
            drop(state);
            Ok(Begun::Interrupted {
                verdict,
                lines: lines?,
            })
        }
        Err(NoMemory) => {
            drop(state);
            Err(NoMemory)
        }
    }
}

/// Judges the response of a half: its two phases, and the logging phase.
pub fn finish<L: Ledger>(
    alloc: Global,
    half: Half,
    response: Response,
    steps: &mut Steps<L>,
) -> Result<Ended, NoMemory>
    ensures ends { IfOk result (λ ended. EndsAs half response ended) }
    ensures most { steps.new ≤ steps.old
        + (rules_in RESPONSE_HEADERS half.listing.items + rules_in RESPONSE_BODY half.listing.items
        + rules_in LOGGING half.listing.items) }
{
    let Half {
        rules,
        mut state,
        ..
    } = half;
    let ended = judge_response(alloc, &rules, response, &mut state, steps);
    drop(state);
    ended
}

/// Ends a half for which no response comes any more: the logging phase. It answers the lines that
/// were logged since the request's.
pub fn retire<L: Ledger>(
    alloc: Global,
    half: Half,
    steps: &mut Steps<L>,
) -> Result<Seq<LogLine>, NoMemory>
    ensures retires { IfOk result (λ lines. RetiresAs half lines) }
    ensures most { steps.new ≤ steps.old + rules_in LOGGING half.listing.items }
{
    let Half {
        rules,
        mut state,
        ..
    } = half;
    let lines = retired_lines(alloc, &rules, &mut state, steps);
    drop(state);
    lines
}
