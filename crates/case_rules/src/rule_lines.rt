// The logical lines of a text of rules, the words of a line, and quoted texts.

use case_text::Answer;
use sec_text::{Line, TextFault, WordFault, lines_of, read_quoted, words_of};
use std::alloc::Global;
use waf_plain::{Bytes, NoMemory, Seq};

// A longer text is no case.
const LONGEST: usize = 0x8000_0000;

/// `lines TEXT`: each line's number and text. `words TEXT`: the words. `quoted TEXT`: the text up to
/// its closing quote, and the rest. Or the fault, for lines with its number.
pub fn answer(alloc: Global, given: &[Bytes], out: &mut Answer) {
    let [call, text] = given else {
        return out.malformed();
    };
    let text = text.as_slice();
    match call.as_slice() {
        b"lines" => lines(alloc, text, out),
        b"words" => words(alloc, text, out),
        b"quoted" => quoted(alloc, text, out),
        _ => out.malformed(),
    }
}

fn lines(alloc: Global, text: &[u8], out: &mut Answer) {
    if text.len() >= LONGEST {
        return out.malformed();
    }
    match lines_of(alloc, text) {
        Ok(lines) => put_lines(lines.as_slice(), out),
        Err(TextFault::NotText { line }) => out.named_number(b"NotText", u64::from(line)),
        Err(TextFault::TooLong { line }) => out.named_number(b"TooLong", u64::from(line)),
        Err(TextFault::NoMemory) => out.no_memory(),
    }
}

fn put_lines(lines: &[Line], out: &mut Answer) {
    for line in lines {
        out.number(u64::from(line.number));
        out.quoted(line.text.as_slice());
    }
}

fn words(alloc: Global, text: &[u8], out: &mut Answer) {
    match words_of_text(alloc, text) {
        Ok(words) => put_words(&words, out),
        Err(WordFault::OpenQuote) => out.plain(b"OpenQuote"),
        Err(WordFault::BadWord) => out.plain(b"BadWord"),
        Err(WordFault::NoMemory) => out.no_memory(),
    }
}

fn words_of_text(alloc: Global, text: &[u8]) -> Result<Seq<Bytes>, WordFault> {
    let line = Line {
        number: 1,
        text: Bytes::copy(alloc, text)?,
    };
    words_of(alloc, &line)
}

fn put_words(words: &Seq<Bytes>, out: &mut Answer) {
    for word in words.as_slice() {
        out.quoted(word.as_slice());
    }
}

fn quoted(alloc: Global, text: &[u8], out: &mut Answer) {
    match read_quoted(alloc, b'"', text) {
        Ok(Some((inner, rest))) => {
            out.quoted(inner.as_slice());
            out.quoted(rest)
        }
        Ok(None) => out.plain(b"open"),
        Err(NoMemory) => out.no_memory(),
    }
}
