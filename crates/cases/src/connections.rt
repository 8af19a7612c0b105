use crate::memory::{Pieces, one_file, output};
use agent_main::offline_main;
use case_text::{Answer, items};
use std::alloc::Global;
use waf_io::{MemFiles, MemSink};
use waf_plain::{Bytes, NoMemory, Seq};

// The sizes of the pieces in which each input comes once more.
const SIZES: [usize; 4] = [1, 2, 7, 64];

/// `RULES INPUT`, then the exit status of `once` and its output. `pieces` and a size come where they are
/// others when the input comes in pieces of this size.
pub fn answer(alloc: Global, given: &[Bytes], out: &mut Answer) {
    let [rules, input] = given else {
        return out.malformed();
    };
    let rules = rules.as_slice();
    let input = input.as_slice();
    serve(alloc, rules, input, input.len(), out);
    for size in SIZES {
        if !is_same(alloc, rules, input, size, out) {
            return out.named_number(b"pieces", size as u64);
        }
    }
}

// Whether the input in pieces of this size comes to what `whole` has.
fn is_same(alloc: Global, rules: &[u8], input: &[u8], size: usize, whole: &Answer) -> bool {
    let mut cut = Answer::new(alloc);
    serve(alloc, rules, input, size, &mut cut);
    cut.words() == whole.words()
}

// Serves the input in pieces of this size.
fn serve(alloc: Global, rules: &[u8], input: &[u8], size: usize, out: &mut Answer) {
    match one_file(alloc, b"rules", rules) {
        Ok(mut files) => serve_under(alloc, &mut files, input, size, out),
        Err(NoMemory) => out.no_memory(),
    }
}

fn serve_under(alloc: Global, files: &mut MemFiles, input: &[u8], size: usize, out: &mut Answer) {
    match Pieces::new(alloc, input, size, Seq::new(alloc)) {
        Ok(mut input) => serve_input(alloc, files, &mut input, out),
        Err(NoMemory) => out.no_memory(),
    }
}

fn serve_input(alloc: Global, files: &mut MemFiles, input: &mut Pieces, out: &mut Answer) {
    match output(alloc, Seq::new(alloc)) {
        Ok(mut output) => once(alloc, files, input, &mut output, out),
        Err(NoMemory) => out.no_memory(),
    }
}

fn once(
    alloc: Global,
    files: &mut MemFiles,
    input: &mut Pieces,
    output: &mut MemSink,
    out: &mut Answer,
) {
    match items(alloc, b"once rules", b' ') {
        Ok(words) => {
            let status = offline_main(alloc, words, files, input, output);
            out.number(u64::from(status));
            out.quoted(output.bytes())
        }
        Err(NoMemory) => out.no_memory(),
    }
}
