// Patterns that select names, rules with patterns that have no reading, and patterns of PCRE in other words.

use crate::rule_files::listing_of;
use crate::rules::put_bad_pattern;
use crate::transactions::request_of;
use case_text::Answer;
use pattern_text::{WordFault, word_pattern};
use sec_ast::{Listing, Selector};
use sec_compile::{CompileFault, Ruleset, compile};
use sec_meaning::{PlainState, plain_judge, plain_phase};
use sec_ops::{BuildFault, NamePattern};
use std::alloc::Global;
use waf_plain::{Bytes, NoMemory};
use web_parts::Request;

/// `selects PATTERN NAME`: whether the pattern selects the name. `rules TEXT NAME`: whether the rules of
/// that file are built, or the place and identifier of the first with a bad pattern, by `compile`,
/// `plain_judge` and `plain_phase`. `worded PATTERN -`: the pattern for the crate `regex`, or that it is
/// unsupported.
pub fn answer(alloc: Global, given: &[Bytes], out: &mut Answer) {
    let [call, text, name] = given else {
        return out.malformed();
    };
    match call.as_slice() {
        b"selects" => selects(alloc, text.as_slice(), name.as_slice(), out),
        b"rules" => rules(alloc, text.as_slice(), name.as_slice(), out),
        b"worded" => worded(alloc, text.as_slice(), out),
        _ => out.malformed(),
    }
}

fn selects(alloc: Global, pattern: &[u8], name: &[u8], out: &mut Answer) {
    match NamePattern::read(alloc, pattern) {
        Ok(pattern) => put_selected(pattern.selects(name), out),
        Err(BuildFault::BadPattern) => out.plain(b"BadPattern"),
        Err(BuildFault::NoMemory) => out.no_memory(),
    }
}

fn worded(alloc: Global, pattern: &[u8], out: &mut Answer) {
    match word_pattern(alloc, pattern) {
        Ok(text) => out.quoted(text.as_slice()),
        Err(WordFault::Unsupported) => out.plain(b"Unsupported"),
        Err(WordFault::NoMemory) => out.no_memory(),
    }
}

fn put_selected(is_selected: Result<bool, NoMemory>, out: &mut Answer) {
    match is_selected {
        Ok(is_selected) => out.choice(is_selected, b"yes", b"no"),
        Err(NoMemory) => out.no_memory(),
    }
}

fn rules(alloc: Global, text: &[u8], name: &[u8], out: &mut Answer) {
    match listing_of(alloc, name, text, out) {
        Some(listing) => put_agreed(alloc, &listing, out),
        None => {}
    }
}

fn put_agreed(alloc: Global, listing: &Listing, out: &mut Answer) {
    let mut judged = Answer::new(alloc);
    match request_of(alloc, b"GET /") {
        Ok(request) => by_judgement(alloc, listing, &request, &mut judged),
        Err(NoMemory) => out.no_memory(),
    }
    let mut phased = Answer::new(alloc);
    by_phase(alloc, listing, &mut phased);
    let mut compiled = Answer::new(alloc);
    by_compiling(alloc, listing, &mut compiled);
    if judged.words() != compiled.words() || phased.words() != compiled.words() {
        out.plain(b"calls-differ")
    }
    by_compiling(alloc, listing, out)
}

fn by_compiling(alloc: Global, listing: &Listing, out: &mut Answer) {
    match listing.clone() {
        Ok(copy) => put_compiled(listing, compile(alloc, copy), out),
        Err(_) => out.no_memory(),
    }
}

fn put_compiled(listing: &Listing, compiled: Result<Ruleset, CompileFault>, out: &mut Answer) {
    match compiled {
        Ok(rules) => out.choice(*rules.listing() == *listing, b"built", b"another"),
        Err(fault) => put_bad_pattern(&fault, out),
    }
}

fn by_judgement(alloc: Global, listing: &Listing, request: &Request, out: &mut Answer) {
    match plain_judge(alloc, listing, request, None) {
        Ok(_) => out.plain(b"built"),
        Err(fault) => put_bad_pattern(&fault, out),
    }
}

fn by_phase(alloc: Global, listing: &Listing, out: &mut Answer) {
    match start(alloc, listing) {
        Ok(state) => put_phase(alloc, listing, &state, out),
        Err(NoMemory) => out.no_memory(),
    }
}

fn start(alloc: Global, listing: &Listing) -> Result<PlainState, NoMemory> {
    let request = request_of(alloc, b"GET /")?;
    let state = PlainState::start(alloc, listing, &request);
    drop(request);
    state
}

fn put_phase(alloc: Global, listing: &Listing, state: &PlainState, out: &mut Answer) {
    match plain_phase(alloc, listing, 1, state) {
        Ok(after) => {
            drop(after);
            out.plain(b"built")
        }
        Err(fault) => put_bad_pattern(&fault, out),
    }
}
