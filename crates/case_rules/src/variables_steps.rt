// What becomes of the variables of a transaction before they are looked at.

use crate::transactions::response_of;
use case_text::{pieces, small_number, word_at};
use sec_ast::Processor;
use sec_collect::Vars;
use std::alloc::Global;
use waf_plain::{Bytes, NoMemory, Seq};

/// The steps, a line each: `processor NAME`, `body NAME LIMIT`, `response on` or `off`, `put NAME VALUE`,
/// `delete NAME`, `capture GROUPS` with `-` for one that took no part, `matched NAME VALUE`, `forget`.
pub fn take_steps(
    alloc: Global,
    response: &[u8],
    steps: &[u8],
    vars: &mut Vars,
) -> Result<(), NoMemory> {
    for step in pieces(alloc, steps, b'\n')?.as_slice() {
        take_step(alloc, response, step.as_slice(), vars)?;
    }
    Ok(())
}

fn take_step(alloc: Global, response: &[u8], step: &[u8], vars: &mut Vars) -> Result<(), NoMemory> {
    let words = pieces(alloc, step, b' ')?;
    let words = words.as_slice();
    match word_at(words, 0) {
        b"processor" => Ok(vars.set_processor(processor(word_at(words, 1)))),
        b"body" => add_body(alloc, words, vars),
        b"response" => add_response(alloc, response, word_at(words, 1), vars),
        _ => take_other(alloc, words, vars),
    }
}

fn take_other(alloc: Global, words: &[Bytes], vars: &mut Vars) -> Result<(), NoMemory> {
    match word_at(words, 0) {
        b"put" => vars.set_tx(alloc, word_at(words, 1), word_at(words, 2)),
        b"delete" => Ok(vars.delete_tx(alloc, word_at(words, 1))),
        b"capture" => capture(alloc, words, vars),
        _ => take_match(alloc, words, vars),
    }
}

fn take_match(alloc: Global, words: &[Bytes], vars: &mut Vars) -> Result<(), NoMemory> {
    match word_at(words, 0) {
        b"matched" => add_matched(alloc, word_at(words, 1), word_at(words, 2), vars),
        b"forget" => Ok(vars.forget_matched(alloc)),
        _ => Ok(()),
    }
}

fn processor(name: &[u8]) -> Processor {
    match Processor::named(name) {
        Some(processor) => processor,
        None => Processor::Plain,
    }
}

fn add_body(alloc: Global, words: &[Bytes], vars: &mut Vars) -> Result<(), NoMemory> {
    let limit = small_number(word_at(words, 2)).unwrap_or(0);
    vars.add_body(alloc, processor(word_at(words, 1)), u64::from(limit))
}

fn add_response(
    alloc: Global,
    response: &[u8],
    body: &[u8],
    vars: &mut Vars,
) -> Result<(), NoMemory> {
    match response_of(alloc, response)? {
        Some(response) => vars.add_response(alloc, response, body == b"on".as_slice()),
        None => Ok(()),
    }
}

fn add_matched(alloc: Global, name: &[u8], value: &[u8], vars: &mut Vars) -> Result<(), NoMemory> {
    let name = Bytes::copy(alloc, name)?;
    let value = Bytes::copy(alloc, value)?;
    vars.add_matched(name, value)
}

fn capture(alloc: Global, words: &[Bytes], vars: &mut Vars) -> Result<(), NoMemory> {
    let groups = groups(alloc, words)?;
    vars.capture(alloc, &groups)
}

// The words behind the first, each a group.
fn groups(alloc: Global, words: &[Bytes]) -> Result<Seq<Option<Bytes>>, NoMemory> {
    let mut groups = Seq::new(alloc);
    for word in words.iter().skip(1) {
        groups.push(group(alloc, word.as_slice())?)?;
    }
    Ok(groups)
}

fn group(alloc: Global, word: &[u8]) -> Result<Option<Bytes>, NoMemory> {
    match word {
        [b'-'] => Ok(None),
        word => Ok(Some(Bytes::copy(alloc, word)?)),
    }
}
