use crate::word::Word;
use itoa::Buffer;
use std::alloc::Global;
use waf_plain::{Bytes, NoMemory, Seq};

/// The words that a case came to. It notes when memory ran out, so that what adds to it need not ask
/// after each word.
#[derive(Drop)]
pub struct Answer {
    alloc: Global,
    words: Seq<Word>,
    is_whole: bool,
}

impl Answer {
    /// No words.
    pub fn new(alloc: Global) -> Answer {
        Answer {
            alloc,
            words: Seq::new(alloc),
            is_whole: true,
        }
    }

    /// Adds a plain word, which has no blank and no quote.
    pub fn plain(&mut self, text: &[u8]) {
        match Bytes::copy(self.alloc, text) {
            Ok(bytes) => self.put(Word::Plain(bytes)),
            Err(NoMemory) => self.no_memory(),
        }
    }

    /// Adds a word in quotes.
    pub fn quoted(&mut self, text: &[u8]) {
        match Bytes::copy(self.alloc, text) {
            Ok(bytes) => self.put(Word::Quoted(bytes)),
            Err(NoMemory) => self.no_memory(),
        }
    }

    /// Adds a word in quotes, or `-` for one that is absent.
    pub fn quoted_or_dash(&mut self, text: &Option<Bytes>) {
        match text {
            Some(text) => self.quoted(text.as_slice()),
            None => self.plain(b"-"),
        }
    }

    /// Adds a number as a plain word.
    pub fn number(&mut self, number: u64) {
        let mut buffer = Buffer::new();
        self.plain(buffer.format(number).as_bytes())
    }

    /// Adds a number that may be negative.
    pub fn signed(&mut self, number: i64) {
        let mut buffer = Buffer::new();
        self.plain(buffer.format(number).as_bytes())
    }

    /// Adds one of these two plain words.
    pub fn choice(&mut self, is_first: bool, first: &[u8], second: &[u8]) {
        if is_first {
            self.plain(first)
        } else {
            self.plain(second)
        }
    }

    /// Adds a plain word and one in quotes.
    pub fn named(&mut self, name: &[u8], text: &[u8]) {
        self.plain(name);
        self.quoted(text)
    }

    /// Adds a plain word and a number.
    pub fn named_number(&mut self, name: &[u8], number: u64) {
        self.plain(name);
        self.number(number)
    }

    /// Tells that the given words are none of the kind.
    pub fn malformed(&mut self) {
        self.plain(b"malformed")
    }

    /// Notes that memory ran out.
    pub fn no_memory(&mut self) {
        self.is_whole = false;
    }

    /// The words.
    pub fn words(&self) -> &[Word] {
        self.words.as_slice()
    }

    /// Whether memory never ran out.
    pub fn is_whole(&self) -> bool {
        self.is_whole
    }

    fn put(&mut self, word: Word) {
        match self.words.push(word) {
            Ok(()) => {}
            Err(NoMemory) => self.no_memory(),
        }
    }
}
