ghost use Rattle.std.specs.Prelude.{◌≡◌, ℕ, IfOk, IfErr, OnOk, Some, None};
ghost use Rattle.sec_compile.specs.Unread.{IsFault, first_fault};
ghost use Rattle.std.specs.Option.{option_copied};
ghost use Rattle.sec_meaning.specs.Judgement.{answered, judge, response_part, start, two_phases};
ghost use Rattle.sec_meaning.specs.Phase.{phase};

use crate::phase::run;
use crate::phase_number::{
    LOGGING, REQUEST_BODY, REQUEST_HEADERS, RESPONSE_BODY, RESPONSE_HEADERS,
};
use crate::{Judged, PlainFault, PlainState};
use sec_ast::{Listing, Processor, Verdict};
use sec_collect::{AddedResponse, Captures, Variables};
use sec_compile::build_items;
use std::alloc::Global;
use std::mem;
use waf_plain::{NoMemory, Seq};
use web_parts::{Request, Response};

impl PlainState {
    /// The state before the first phase.
    pub fn start(
        alloc: Global,
        listing: &Listing,
        request: &Request,
    ) -> Result<PlainState, NoMemory>
        ensures { IfOk result (λ state. state ≡ start listing.now request.now) }
    {
        let request = request.clone()?;
        Ok(PlainState::with_request(alloc, listing, request))
    }

    fn with_request(alloc: Global, listing: &Listing, request: Request) -> PlainState
        ensures { result ≡ start listing.now request }
    {
        PlainState {
            engine: listing.engine,
            request_body: listing.request_body,
            response_body: listing.response_body,
            processor: Processor::Plain,
            request,
            body: None,
            response: None,
            tx: Variables::new(alloc),
            captured: Captures::new(alloc),
            matched: Seq::new(alloc),
            removed_rules: Seq::new(alloc),
            next_phase: REQUEST_HEADERS,
            verdict: None,
            lines: Seq::new(alloc),
        }
    }

    /// This state with the response's rows: the state before its phases. Whether its body is read is a
    /// setting of the state by then, so the listing plays no part.
    pub fn answered(&self, _listing: &Listing, response: &Response) -> Result<PlainState, NoMemory>
        ensures { IfOk result (λ state. state ≡ answered response.now self.now) }
    {
        let mut state = self.clone()?;
        match state.add_response(response) {
            Ok(()) => Ok(state),
            Err(NoMemory) => {
                drop(state);
                Err(NoMemory)
            }
        }
    }

    fn add_response(&mut self, response: &Response) -> Result<(), NoMemory>
        ensures { OnOk result (self.new ≡ answered response.now self.old) }
    {
        let response = response.clone()?;
        self.response = Some(AddedResponse {
            response,
            with_body: self.response_body,
        });
        Ok(())
    }
}

fn two_phases(
    alloc: Global,
    listing: &Listing,
    one: u8,
    other: u8,
    state: &mut PlainState,
) -> Result<Option<Verdict>, NoMemory>
    ensures verdict { IfOk result (λ verdict. verdict ≡ (two_phases listing.now one other state.old).verdict) }
    ensures state { OnOk result (state.new ≡ (two_phases listing.now one other state.old).state) }
{
    match run(alloc, listing, one, state)? {
        Some(verdict) => Ok(Some(verdict)),
        None => run(alloc, listing, other, state),
    }
}

fn response_part(
    alloc: Global,
    listing: &Listing,
    response: Option<&Response>,
    first: &Option<Verdict>,
    state: &mut PlainState,
) -> Result<Option<Verdict>, NoMemory>
    ensures verdict { IfOk result (λ verdict. verdict ≡ (response_part listing.now (option_copied response.entry)
        (record { state = state.old; verdict = first.now; looked = 0 })).verdict) }
    ensures state { OnOk result (state.new ≡ (response_part listing.now (option_copied response.entry)
        (record { state = state.old; verdict = first.now; looked = 0 })).state) }
{
    match response {
        None => Ok(None),
        Some(response) => match first {
            Some(_) => Ok(None),
            None => {
                state.add_response(response)?;
                two_phases(alloc, listing, RESPONSE_HEADERS, RESPONSE_BODY, state)
            }
        },
    }
}

fn judged(
    alloc: Global,
    listing: &Listing,
    request: &Request,
    response: Option<&Response>,
) -> Result<Judged, NoMemory>
    ensures { IfOk result (λ judged. judged ≡ judge listing.now request.now (option_copied response.entry)) }
{
    let mut state = PlainState::start(alloc, listing, request)?;
    let judged = judged_from(alloc, listing, request, response, &mut state);
    drop(state);
    judged
}

// The judgement from the state before the first phase, whose lines are taken out.
fn judged_from(
    alloc: Global,
    listing: &Listing,
    request: &Request,
    response: Option<&Response>,
    state: &mut PlainState,
) -> Result<Judged, NoMemory>
    requires { state.old ≡ start listing.now request.now }
    ensures { IfOk result (λ judged. judged ≡ judge listing.now request.now (option_copied response.entry)) }
{
    let first = two_phases(alloc, listing, REQUEST_HEADERS, REQUEST_BODY, state)?;
    let second = response_part(alloc, listing, response, &first, state)?;
    run(alloc, listing, LOGGING, state)?;
    let lines = mem::replace(&mut state.lines, Seq::new(alloc));
    Ok(Judged {
        first,
        second,
        lines,
    })
}

/// The verdicts and log lines of a transaction.
pub fn plain_judge(
    alloc: Global,
    listing: &Listing,
    request: &Request,
    response: Option<&Response>,
) -> Result<Judged, PlainFault>
    ensures judged { IfOk result (λ judged. judged ≡ judge listing.now request.now (option_copied response.entry)) }
    ensures read { OnOk result (first_fault listing.now.items ≡ None) }
    ensures bad { IfErr result (λ fault. IsFault fault (first_fault listing.now.items)) }
{
    // For its fault alone: each operator is built again where its link is looked at.
    build_items(alloc, listing.items.as_slice())?;
    match judged(alloc, listing, request, response) {
        Ok(judged) => Ok(judged),
        Err(NoMemory) => Err(PlainFault::NoMemory),
    }
}
