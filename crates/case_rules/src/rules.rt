// Rules, a request and a response, and what they come to: by the definition, phase by phase, and by
// halves, which must agree.

use crate::rule_files::listing_of;
use crate::rules_halves::by_halves;
use crate::rules_phases::by_phases;
use crate::transactions::{request_of, response_of};
use case_text::Answer;
use sec_ast::{Listing, LogLine, Place, Verdict, VerdictAct};
use sec_meaning::{Judged, PlainFault, plain_judge};
use std::alloc::Global;
use waf_plain::{Bytes, NoMemory};
use web_parts::{Request, Response};

/// `RULES REQUEST RESPONSE`, the last `-` where none comes: the verdict on each, and the log lines.
pub fn answer(alloc: Global, given: &[Bytes], out: &mut Answer) {
    let [rules, request, response] = given else {
        return out.malformed();
    };
    match listing_of(alloc, b"rules", rules.as_slice(), out) {
        Some(listing) => judge(
            alloc,
            &listing,
            request.as_slice(),
            response.as_slice(),
            out,
        ),
        None => {}
    }
}

fn judge(alloc: Global, listing: &Listing, request: &[u8], response: &[u8], out: &mut Answer) {
    match request_of(alloc, request) {
        Ok(request) => answered(alloc, listing, &request, response, out),
        Err(NoMemory) => out.no_memory(),
    }
}

fn answered(
    alloc: Global,
    listing: &Listing,
    request: &Request,
    response: &[u8],
    out: &mut Answer,
) {
    match response_of(alloc, response) {
        Ok(response) => put_judged(alloc, listing, request, response.as_ref(), out),
        Err(NoMemory) => out.no_memory(),
    }
}

fn put_judged(
    alloc: Global,
    listing: &Listing,
    request: &Request,
    response: Option<&Response>,
    out: &mut Answer,
) {
    match plain_judge(alloc, listing, request, response) {
        Ok(judged) => {
            compare(
                by_phases(alloc, listing, request, response),
                &judged,
                b"phases-differ",
                out,
            );
            compare(
                by_halves(alloc, listing, request, response),
                &judged,
                b"halves-differ",
                out,
            );
            put_verdicts(&judged, out)
        }
        Err(fault) => put_bad_pattern(&fault, out),
    }
}

// Tells where another way came to something else.
fn compare(other: Result<Judged, NoMemory>, judged: &Judged, told: &[u8], out: &mut Answer) {
    match other {
        Ok(other) if other == *judged => {}
        Ok(_) => out.plain(told),
        Err(NoMemory) => out.no_memory(),
    }
}

/// `BadPattern`, the place of the rule, and its identifier.
pub fn put_bad_pattern(fault: &PlainFault, out: &mut Answer) {
    match fault {
        PlainFault::BadPattern { place, id } => {
            put_place(place, out);
            out.number(u64::from(*id))
        }
        PlainFault::NoMemory => out.no_memory(),
    }
}

fn put_place(place: &Place, out: &mut Answer) {
    out.named(b"BadPattern", place.file.as_slice());
    out.number(u64::from(place.line))
}

fn put_verdicts(judged: &Judged, out: &mut Answer) {
    put_verdict(&judged.first, out);
    put_verdict(&judged.second, out);
    for line in judged.lines.as_slice() {
        put_line(line, out);
    }
}

// What is done, the status and the rule; `-` where nothing is done.
fn put_verdict(verdict: &Option<Verdict>, out: &mut Answer) {
    let Some(verdict) = verdict else {
        return out.plain(b"-");
    };
    put_act(&verdict.act, out);
    out.number(u64::from(verdict.status));
    out.number(u64::from(verdict.rule))
}

fn put_act(act: &VerdictAct, out: &mut Answer) {
    match act {
        VerdictAct::Deny => out.plain(b"deny"),
        VerdictAct::Drop => out.plain(b"drop"),
        VerdictAct::Redirect(location) => out.named(b"redirect", location.as_slice()),
    }
}

fn put_line(line: &LogLine, out: &mut Answer) {
    out.number(u64::from(line.rule));
    out.quoted(line.msg.as_slice());
    out.quoted(line.detail.as_slice())
}
