// Rule files and their canonical text, or their first fault.

use crate::rule_files::{listing_of, listing_of_all};
use case_text::{Answer, items, pieces};
use sec_ast::{Engine, Listing, print_listing};
use std::alloc::Global;
use waf_plain::{Bytes, NoMemory, Seq};

// How many lines of the canonical text are settings.
const SETTINGS: usize = 5;

// The settings of a listing that says nothing of them.
const FIRST_LIMIT: u64 = 131_072;

/// `NAMES TEXT`: the files that are handed in, between commas, and what stands in them. A line of the
/// canonical text a word, those of the settings only where one is not as at the start; or the fault.
pub fn answer(alloc: Global, given: &[Bytes], out: &mut Answer) {
    let [names, text] = given else {
        return out.malformed();
    };
    match items(alloc, names.as_slice(), b',') {
        Ok(names) => read(alloc, &names, text.as_slice(), out),
        Err(NoMemory) => out.no_memory(),
    }
}

fn read(alloc: Global, names: &Seq<Bytes>, text: &[u8], out: &mut Answer) {
    match names.as_slice() {
        [] => out.malformed(),
        [name] => {
            let listing = listing_of(alloc, name.as_slice(), text, out);
            put_read(alloc, listing, out)
        }
        [first, ..] => {
            let listing = listing_of_all(alloc, names, first.as_slice(), text, out);
            put_read(alloc, listing, out)
        }
    }
}

fn put_read(alloc: Global, listing: Option<Listing>, out: &mut Answer) {
    match listing {
        Some(listing) => put_listing(alloc, &listing, out),
        None => {}
    }
}

fn put_listing(alloc: Global, listing: &Listing, out: &mut Answer) {
    if !is_its_copy(listing) {
        out.plain(b"another-copy")
    }
    match canonical(alloc, listing) {
        Ok(text) => put_canonical(alloc, text.as_slice(), has_first_settings(listing), out),
        Err(NoMemory) => out.no_memory(),
    }
}

fn is_its_copy(listing: &Listing) -> bool {
    match listing.clone() {
        Ok(copy) => copy == *listing,
        Err(_) => false,
    }
}

fn canonical(alloc: Global, listing: &Listing) -> Result<Bytes, NoMemory> {
    let mut text = Bytes::new(alloc);
    print_listing(alloc, listing, &mut text)?;
    Ok(text)
}

fn put_canonical(alloc: Global, text: &[u8], without_settings: bool, out: &mut Answer) {
    if !is_read_back(alloc, text, out) {
        out.plain(b"not-read-back")
    }
    match pieces(alloc, text, b'\n') {
        Ok(lines) => put_lines(lines.as_slice(), without_settings, out),
        Err(NoMemory) => out.no_memory(),
    }
}

// Whether a canonical text is that of the listing that is read from it.
fn is_read_back(alloc: Global, text: &[u8], out: &mut Answer) -> bool {
    match listing_of(alloc, b"canonical", text, out) {
        Some(listing) => is_canonical(alloc, &listing, text),
        None => false,
    }
}

fn is_canonical(alloc: Global, listing: &Listing, text: &[u8]) -> bool {
    match canonical(alloc, listing) {
        Ok(again) => again.as_slice() == text,
        Err(NoMemory) => false,
    }
}

fn has_first_settings(listing: &Listing) -> bool {
    listing.engine == Engine::On
        && listing.request_body
        && listing.request_limit == FIRST_LIMIT
        && listing.limit_reject
        && !listing.response_body
}

fn put_lines(lines: &[Bytes], without_settings: bool, out: &mut Answer) {
    for (at, line) in lines.iter().enumerate() {
        let is_passed_over = line.is_empty() || (without_settings && at < SETTINGS);
        if !is_passed_over {
            out.quoted(line.as_slice());
        }
    }
}
