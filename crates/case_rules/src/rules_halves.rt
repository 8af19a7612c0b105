ghost use Rattle.std.specs.Prelude.{◌≡◌, ◌<◌};

// What rules come to by halves: the request's first, and later the response's or the end.

use sec_ast::{Listing, LogLine};
use sec_compile::{Ruleset, compile};
use sec_meaning::Judged;
use std::alloc::{AllocError, Global};
use std::marker::Brand;
use std::sync::Arc;
use std::sync::ledger::{Blank, Ledger};
use tx_core::{Begun, Ended, Half, begin, finish, retire};
use waf_plain::{NoMemory, Seq, Steps};
use web_parts::{Request, Response};

/// The same as the definition, by `begin` and then `finish` or `retire`.
pub fn by_halves(
    alloc: Global,
    listing: &Listing,
    request: &Request,
    response: Option<&Response>,
) -> Result<Judged, NoMemory> {
    by_two::<Brand>(alloc, Blank::new(1), listing, request, response)
}

fn by_two<L: Ledger>(
    alloc: Global,
    blank: Blank,
    listing: &Listing,
    request: &Request,
    response: Option<&Response>,
) -> Result<Judged, NoMemory>
    requires name { blank.name ≡ L.name }
    requires parts { blank.parts ≡ L.parts }
    requires some { 0 < L.parts }
{
    let mut steps = Steps::<L>::start(blank);
    match begun(alloc, listing, request, &mut steps)? {
        Begun::Interrupted { verdict, lines } => Ok(Judged {
            first: Some(verdict),
            second: None,
            lines,
        }),
        Begun::Goes { half, lines } => {
            let ended = ended(alloc, half, response, &mut steps);
            judged(lines, ended)
        }
    }
}

fn begun<L: Ledger>(
    alloc: Global,
    listing: &Listing,
    request: &Request,
    steps: &mut Steps<L>,
) -> Result<Begun, NoMemory> {
    let rules = rules_of(alloc, listing)?;
    let request = request.clone()?;
    begin(alloc, rules, 1, request, steps)
}

fn rules_of(alloc: Global, listing: &Listing) -> Result<Arc<Ruleset, Global>, NoMemory> {
    let listing = listing.clone()?;
    match compile(alloc, listing) {
        Ok(rules) => Ok(Arc::new(alloc, rules)?),
        Err(_) => Err(NoMemory),
    }
}

fn ended<L: Ledger>(
    alloc: Global,
    half: Half,
    response: Option<&Response>,
    steps: &mut Steps<L>,
) -> Result<Ended, NoMemory> {
    match response {
        Some(response) => {
            let copy: Result<_, _> = response.clone();
            finished(alloc, half, copy, steps)
        }
        None => retired(alloc, half, steps),
    }
}

fn finished<L: Ledger>(
    alloc: Global,
    half: Half,
    response: Result<Response, AllocError>,
    steps: &mut Steps<L>,
) -> Result<Ended, NoMemory> {
    match response {
        Ok(response) => finish(alloc, half, response, steps),
        Err(_) => {
            drop(half);
            Err(NoMemory)
        }
    }
}

fn retired<L: Ledger>(alloc: Global, half: Half, steps: &mut Steps<L>) -> Result<Ended, NoMemory> {
    Ok(Ended {
        verdict: None,
        lines: retire(alloc, half, steps)?,
    })
}

fn judged(lines: Seq<LogLine>, ended: Result<Ended, NoMemory>) -> Result<Judged, NoMemory> {
    let Ended {
        verdict,
        lines: further,
    } = ended?;
    Ok(Judged {
        first: None,
        second: verdict,
        lines: joined(lines, further.as_slice())?,
    })
}

fn joined(lines: Seq<LogLine>, further: &[LogLine]) -> Result<Seq<LogLine>, NoMemory> {
    let mut all = lines;
    for line in further {
        all.push(line.clone()?)?;
    }
    Ok(all)
}
