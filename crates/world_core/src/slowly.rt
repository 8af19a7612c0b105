//! The judge of `sec_meaning`: each call judges the transaction anew, from its start.
ghost use Rattle.std.specs.Prelude.{◌≡◌, ◌≤◌, None, drop, length, IfOk};
ghost use Rattle.std.specs.Arc.{arc_value};
ghost use Rattle.std.specs.Option.{option_copied};
ghost use Rattle.sec_meaning.specs.Judgement.{judge, request_part};
ghost use Rattle.sec_meaning.specs.Phase.{phase};
ghost use Rattle.tx_core.specs.Halves.{BeginsAs, first_lines};
ghost use Rattle.world_core.specs.Begun.{begun_of};

use crate::begun::JudgeBegun;
use crate::judge::Judge;
use crate::rules::Handle;
use sec_ast::{Listing, LogLine};
use sec_meaning::phase_number::{REQUEST_BODY, REQUEST_HEADERS};
use sec_meaning::{PlainState, plain_judge, plain_phase};
use std::alloc::Global;
use std::marker::Model;
use tx_core::Ended;
use waf_plain::{NoMemory, Seq};
use web_parts::{Request, Response};

/// Judges by `plain_judge` and `plain_phase` of `sec_meaning`: slowly, since each call starts from the
/// request.
#[derive(Drop)]
pub struct Slowly {}

/// A request that was judged and not interrupted, and how many lines were logged for it.
#[derive(Drop)]
pub struct SlowHalf {
    rules: Handle,
    generation: u64,
    request: Request,
    logged: u64,
}

impl Model for SlowHalf {
    ghost use Rattle.tx_core.specs.HalfView.{HalfView};
    ghost use Rattle.world_core.specs.Slowly.{IsBegun, seen_slow_half};

    ghost Value = { HalfView };

    ghost view = { seen_slow_half };

    ghost invariant = { IsBegun };
}

impl Judge for Slowly {
    type Half = SlowHalf;

    ghost half = { λ half. half };

    fn begin(
        &self,
        alloc: Global,
        rules: Handle,
        generation: u64,
        request: Request,
    ) -> Result<JudgeBegun<SlowHalf>, NoMemory> {
        let sec_meaning::Judged { first, lines, .. } = judge_anew(
            alloc,
            rules.listing(),
            &request,
            None,
        )?;
        match first {
            Some(verdict) => Ok(JudgeBegun::Interrupted { verdict, lines }),
            None => goes_on(alloc, rules, generation, request),
        }
    }

    fn finish(&self, alloc: Global, half: SlowHalf, response: Response) -> Result<Ended, NoMemory> {
        let judged = judge_anew(alloc, half.rules.listing(), &half.request, Some(&response))?;
        Ok(Ended {
            verdict: judged.second,
            lines: after_first(judged.lines, half.logged),
        })
    }

    fn retire(&self, alloc: Global, half: SlowHalf) -> Result<Seq<LogLine>, NoMemory> {
        let judged = judge_anew(alloc, half.rules.listing(), &half.request, None)?;
        Ok(after_first(judged.lines, half.logged))
    }
}

// The patterns of compiled rules have been read, so a build of them fails for memory alone.
fn judge_anew(
    alloc: Global,
    listing: &Listing,
    request: &Request,
    response: Option<&Response>,
) -> Result<sec_meaning::Judged, NoMemory>
    ensures { IfOk result (λ judged. judged ≡ judge listing.now request.now (option_copied response.entry)) }
{
    match plain_judge(alloc, listing, request, response) {
        Ok(judged) => Ok(judged),
        Err(_) => Err(NoMemory),
    }
}

fn goes_on(
    alloc: Global,
    rules: Handle,
    generation: u64,
    request: Request,
) -> Result<JudgeBegun<SlowHalf>, NoMemory>
    requires { (request_part (arc_value rules) request).verdict ≡ None }
    ensures { IfOk result (λ begun. BeginsAs (arc_value rules) generation request (begun_of begun)) }
{
    let lines = first_lines(alloc, rules.listing(), &request)?;
    let half = SlowHalf {
        rules,
        generation,
        request,
        logged: lines.len(),
    };
    Ok(JudgeBegun::Goes { half, lines })
}

// The lines of the phases of a request that is not interrupted: its judgement has those of the logging
// phase among them.
fn first_lines(
    alloc: Global,
    listing: &Listing,
    request: &Request,
) -> Result<Seq<LogLine>, NoMemory>
    requires { (request_part listing.now request.now).verdict ≡ None }
    ensures { IfOk result (λ lines. lines ≡ first_lines listing.now request.now) }
{
    let state = PlainState::start(alloc, listing, request)?;
    let state = after_phase(alloc, listing, REQUEST_HEADERS, state)?;
    let state = after_phase(alloc, listing, REQUEST_BODY, state)?;
    Ok(state.lines)
}

fn after_phase(
    alloc: Global,
    listing: &Listing,
    number: u8,
    state: PlainState,
) -> Result<PlainState, NoMemory>
    ensures { IfOk result (λ after. after ≡ (phase listing.now number state).state) }
{
    match plain_phase(alloc, listing, number, &state) {
        Ok(after) => Ok(after),
        Err(_) => Err(NoMemory),
    }
}

fn after_first(lines: Seq<LogLine>, count: u64) -> Seq<LogLine>
    requires { count ≤ length lines }
    ensures { result ≡ drop count lines }
{
    let mut lines = lines.into_vec();
    lines.drain(..count as usize);
    Seq::from_vec(lines)
}
