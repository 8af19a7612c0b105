// What rules come to, phase by phase.

use sec_ast::{Listing, LogLine};
use sec_meaning::{Judged, PlainState, plain_phase};
use std::alloc::Global;
use waf_plain::{NoMemory, Seq};
use web_parts::{Request, Response};

/// Phases 1 and 2; with a response, where these do not interrupt, phases 3 and 4; and phase 5.
pub fn by_phases(
    alloc: Global,
    listing: &Listing,
    request: &Request,
    response: Option<&Response>,
) -> Result<Judged, NoMemory> {
    let asked = asked(alloc, listing, request)?;
    let judged = match response {
        Some(response) if asked.verdict.is_none() => answered(alloc, listing, response, &asked),
        _ => unanswered(alloc, listing, &asked),
    };
    drop(asked);
    judged
}

fn asked(alloc: Global, listing: &Listing, request: &Request) -> Result<PlainState, NoMemory> {
    let start = PlainState::start(alloc, listing, request)?;
    let after = two_phases(alloc, listing, 1, 2, &start);
    drop(start);
    after
}

fn answered(
    alloc: Global,
    listing: &Listing,
    response: &Response,
    asked: &PlainState,
) -> Result<Judged, NoMemory> {
    let told = told(alloc, listing, response, asked)?;
    let verdict: Result<_, _> = told.verdict.clone();
    let lines = last_lines(alloc, listing, &told);
    drop(told);
    Ok(Judged {
        first: None,
        second: verdict?,
        lines: lines?,
    })
}

fn told(
    alloc: Global,
    listing: &Listing,
    response: &Response,
    asked: &PlainState,
) -> Result<PlainState, NoMemory> {
    let start = asked.answered(listing, response)?;
    let after = two_phases(alloc, listing, 3, 4, &start);
    drop(start);
    after
}

fn unanswered(alloc: Global, listing: &Listing, asked: &PlainState) -> Result<Judged, NoMemory> {
    Ok(Judged {
        first: asked.verdict.clone()?,
        second: None,
        lines: last_lines(alloc, listing, asked)?,
    })
}

// The second phase only where the first does not interrupt.
fn two_phases(
    alloc: Global,
    listing: &Listing,
    first: u8,
    second: u8,
    state: &PlainState,
) -> Result<PlainState, NoMemory> {
    let between = phase(alloc, listing, first, state)?;
    if between.verdict.is_some() {
        return Ok(between);
    }
    let after = phase(alloc, listing, second, &between);
    drop(between);
    after
}

fn last_lines(
    alloc: Global,
    listing: &Listing,
    state: &PlainState,
) -> Result<Seq<LogLine>, NoMemory> {
    let last = phase(alloc, listing, 5, state)?;
    let lines: Result<_, _> = last.lines.clone();
    drop(last);
    Ok(lines?)
}

fn phase(
    alloc: Global,
    listing: &Listing,
    number: u8,
    state: &PlainState,
) -> Result<PlainState, NoMemory> {
    match plain_phase(alloc, listing, number, state) {
        Ok(after) => Ok(after),
        Err(_) => Err(NoMemory),
    }
}
