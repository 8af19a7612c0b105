use crate::files::Exchanged;
use crate::memory::{Pieces, numbers, output};
use agent_main::offline_main;
use case_text::{Answer, items};
use std::alloc::Global;
use waf_io::MemSink;
use waf_plain::{Bytes, NoMemory, Seq};

/// `WORDS FILES INPUT FAILING`, then the exit status and the output. Words have a line end between them,
/// names and contents of files a byte 0. The calls that fail are numbers behind `f` for a file that is
/// read, `r` for a read of the input, and `w` for a write; `-` stands for none. The input comes whole, or
/// in pieces of the size that stands behind `s`. Behind a byte 1 stand other files, which are there after
/// as many readings as stand behind `x`.
pub fn answer(alloc: Global, given: &[Bytes], out: &mut Answer) {
    let [words, files, input, failing] = given else {
        return out.malformed();
    };
    let calls = failing.as_slice();
    match Exchanged::new(alloc, files.as_slice(), calls) {
        Ok(mut files) => read(
            alloc,
            words.as_slice(),
            &mut files,
            input.as_slice(),
            calls,
            out,
        ),
        Err(NoMemory) => out.no_memory(),
    }
}

fn read(
    alloc: Global,
    words: &[u8],
    files: &mut Exchanged,
    input: &[u8],
    calls: &[u8],
    out: &mut Answer,
) {
    match input_of(alloc, input, calls) {
        Ok(mut input) => begin(alloc, words, files, &mut input, calls, out),
        Err(NoMemory) => out.no_memory(),
    }
}

fn begin(
    alloc: Global,
    words: &[u8],
    files: &mut Exchanged,
    input: &mut Pieces,
    calls: &[u8],
    out: &mut Answer,
) {
    match items(alloc, words, b'\n') {
        Ok(words) => command(alloc, words, files, input, calls, out),
        Err(NoMemory) => out.no_memory(),
    }
}

fn input_of(alloc: Global, input: &[u8], calls: &[u8]) -> Result<Pieces, NoMemory> {
    let size = match numbers(alloc, calls, b's')?.as_slice() {
        [size] => *size as usize,
        _ => input.len(),
    };
    Pieces::new(alloc, input, size, numbers(alloc, calls, b'r')?)
}

fn output_of(alloc: Global, calls: &[u8]) -> Result<MemSink, NoMemory> {
    let failing = numbers(alloc, calls, b'w')?;
    output(alloc, failing)
}

fn command(
    alloc: Global,
    words: Seq<Bytes>,
    files: &mut Exchanged,
    input: &mut Pieces,
    calls: &[u8],
    out: &mut Answer,
) {
    match output_of(alloc, calls) {
        Ok(mut output) => {
            let status = offline_main(alloc, words, files, input, &mut output);
            out.number(u64::from(status));
            out.quoted(output.bytes())
        }
        Err(NoMemory) => out.no_memory(),
    }
}
