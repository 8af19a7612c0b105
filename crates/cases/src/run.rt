use crate::kind::Kind;
use case_text::{
    Answer, At, LineFault, MOST, Report, Word, case_count, filled_words, is_case, place_text,
};
use itoa::Buffer;
use std::alloc::Global;
use waf_io::{FileAnswer, Files, Sink, Wrote, write_whole};
use waf_plain::{Bytes, NoMemory, Seq};

/// Runs the cases of all these files, writes what came of them, and answers the exit status: 0, or 1
/// where a case differs, a line is malformed, a file can't be read, or memory or the output failed.
pub fn run<F: Files, K: Sink>(
    alloc: Global,
    names: &Seq<Bytes>,
    files: &mut F,
    output: &mut K,
) -> u8 {
    let mut status = 0;
    for name in names.as_slice() {
        if !is_passed(alloc, name.as_slice(), files, output) {
            status = 1;
        }
    }
    status
}

// Runs the cases of one file and writes what came of them. Whether all is well.
fn is_passed<F: Files, K: Sink>(alloc: Global, name: &[u8], files: &mut F, output: &mut K) -> bool {
    match report_of(alloc, name, files) {
        Ok(report) => {
            let wrote = write_whole(output, report.text.as_slice());
            !report.differs && wrote == Wrote::All
        }
        Err(NoMemory) => {
            let _ = write_whole(output, b"out of memory\n");
            false
        }
    }
}

fn report_of<F: Files>(alloc: Global, name: &[u8], files: &mut F) -> Result<Report, NoMemory> {
    let mut report = Report::new(alloc);
    match Kind::of_file(name) {
        None => tell_of_file(alloc, name, b"no kind of cases has this name", &mut report)?,
        Some(kind) => match files.read_file(alloc, name, MOST) {
            FileAnswer::NoMemory => return Err(NoMemory),
            FileAnswer::Content(content) => {
                run_lines(alloc, name, kind, content.as_slice(), files, &mut report)?;
                close(name, case_count(content.as_slice()), &mut report)?;
            }
            _ => tell_of_file(alloc, name, b"can't be read", &mut report)?,
        },
    }
    Ok(report)
}

fn tell_of_file(
    alloc: Global,
    name: &[u8],
    what: &[u8],
    report: &mut Report,
) -> Result<(), NoMemory> {
    let mut line = Bytes::copy(alloc, name)?;
    line.append(b": ")?;
    line.append(what)?;
    report.tell(line.as_slice())
}

// The last line of a file: how many cases it has.
fn close(name: &[u8], cases: usize, report: &mut Report) -> Result<(), NoMemory> {
    let mut buffer = Buffer::new();
    report.text.append(name)?;
    report.text.append(b": ")?;
    report.text.append(buffer.format(cases).as_bytes())?;
    report.text.append(b" cases\n")
}

fn run_lines<F: Files>(
    alloc: Global,
    name: &[u8],
    kind: Kind,
    content: &[u8],
    files: &mut F,
    report: &mut Report,
) -> Result<(), NoMemory> {
    let mut number = 0u64;
    for line in content.split(|byte| *byte == b'\n') {
        number = number.saturating_add(1);
        if is_case(line) {
            run_line(alloc, At { name, number }, kind, line, files, report)?;
        }
    }
    Ok(())
}

fn run_line<F: Files>(
    alloc: Global,
    at: At<'_>,
    kind: Kind,
    line: &[u8],
    files: &mut F,
    report: &mut Report,
) -> Result<(), NoMemory> {
    match filled_words(alloc, line, files) {
        Ok(words) if words.as_slice().len() >= kind.given() => {
            run_case(alloc, at, kind, words.as_slice(), report)
        }
        Err(LineFault::NoMemory) => Err(NoMemory),
        _ => malformed(alloc, at, report),
    }
}

fn malformed(alloc: Global, at: At<'_>, report: &mut Report) -> Result<(), NoMemory> {
    let mut text = place_text(alloc, at)?;
    text.append(b"malformed line")?;
    report.tell(text.as_slice())
}

fn run_case(
    alloc: Global,
    at: At<'_>,
    kind: Kind,
    words: &[Word],
    report: &mut Report,
) -> Result<(), NoMemory> {
    let (given, wanted) = words.split_at(kind.given().min(words.len()));
    let came = answer(alloc, kind, given)?;
    report.settle(alloc, at, came.words(), wanted)
}

fn answer(alloc: Global, kind: Kind, given: &[Word]) -> Result<Answer, NoMemory> {
    let given = bytes_of(alloc, given)?;
    let mut answer = Answer::new(alloc);
    kind.answer(alloc, given.as_slice(), &mut answer);
    match answer.is_whole() {
        true => Ok(answer),
        false => Err(NoMemory),
    }
}

fn bytes_of(alloc: Global, words: &[Word]) -> Result<Seq<Bytes>, NoMemory> {
    let mut given = Seq::new(alloc);
    for word in words {
        given.push(Bytes::copy(alloc, word.bytes())?)?;
    }
    Ok(given)
}
