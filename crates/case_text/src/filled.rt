use crate::word::{LineFault, Word, words_of};
use std::alloc::Global;
use waf_io::{FileAnswer, Files};
use waf_plain::Seq;

/// The longest file that is read: 64 MiB.
pub const MOST: u64 = 67_108_864;

/// The words of a line, those that name a file with its content in their place.
pub fn filled_words<F: Files>(
    alloc: Global,
    line: &[u8],
    files: &mut F,
) -> Result<Seq<Word>, LineFault> {
    let mut words = Seq::new(alloc);
    for word in words_of(alloc, line)?.into_vec() {
        words.push(filled(alloc, word, files)?)?;
    }
    Ok(words)
}

fn filled<F: Files>(alloc: Global, word: Word, files: &mut F) -> Result<Word, LineFault> {
    match &word {
        Word::Quoted(_) => Ok(word),
        Word::Plain(bytes) => match bytes.as_slice() {
            [b'<', name @ ..] => content_of(alloc, name, files),
            _ => Ok(word),
        },
    }
}

fn content_of<F: Files>(alloc: Global, name: &[u8], files: &mut F) -> Result<Word, LineFault> {
    match files.read_file(alloc, name, MOST) {
        FileAnswer::Content(content) => Ok(Word::Quoted(content)),
        FileAnswer::NoMemory => Err(LineFault::NoMemory),
        _ => Err(LineFault::Malformed),
    }
}
