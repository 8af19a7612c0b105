use std::alloc::Global;
use waf_plain::{Bytes, NoMemory, Seq};

/// A word of a case line. One in quotes never equals a plain one.
#[derive(Debug, PartialEq, Drop)]
pub enum Word {
    Plain(Bytes),
    Quoted(Bytes),
}

impl Word {
    /// What the word says, without quotes and escapes.
    pub fn bytes(&self) -> &[u8] {
        match self {
            Word::Plain(bytes) => bytes.as_slice(),
            Word::Quoted(bytes) => bytes.as_slice(),
        }
    }
}

/// Why a line has no words.
#[derive(Clone, Copy, Debug, PartialEq, Eq)]
pub enum LineFault {
    /// A quote that does not end, something right behind one that does, or an unknown escape.
    Malformed,
    NoMemory,
}

impl From<NoMemory> for LineFault {
    fn from(_: NoMemory) -> LineFault {
        LineFault::NoMemory
    }
}

/// The words of a line.
pub fn words_of(alloc: Global, line: &[u8]) -> Result<Seq<Word>, LineFault> {
    let mut reader = Reader {
        alloc,
        words: Seq::new(alloc),
        text: Bytes::new(alloc),
        place: Place::Between,
    };
    for byte in line {
        reader.read(*byte)?;
    }
    reader.end()
}

// Where in a line the next byte stands.
#[derive(Clone, Copy)]
enum Place {
    Between,
    Plain,
    Quoted,
    // after `\`
    Escape,
    // after `\x`
    High,
    // after `\x` and a digit of this value
    Low(u8),
    // after the quote that ends a word
    Closed,
}

// The words that were read, the text of the one that is being read, and the place.
#[derive(Drop)]
struct Reader {
    alloc: Global,
    words: Seq<Word>,
    text: Bytes,
    place: Place,
}

impl Reader {
    fn read(&mut self, byte: u8) -> Result<(), LineFault> {
        match self.place {
            Place::Between => self.begin(byte),
            Place::Plain => self.go_on(byte),
            Place::Quoted => self.quoted(byte),
            Place::Escape => self.escape(byte),
            Place::High => self.high(byte),
            Place::Low(high) => self.low(high, byte),
            Place::Closed if is_blank(byte) => self.move_to(Place::Between),
            Place::Closed => Err(LineFault::Malformed),
        }
    }

    fn move_to(&mut self, place: Place) -> Result<(), LineFault> {
        self.place = place;
        Ok(())
    }

    fn put(&mut self, byte: u8, place: Place) -> Result<(), LineFault> {
        self.text.push(byte)?;
        self.move_to(place)
    }

    // The text so far; the next one begins empty.
    fn taken(&mut self) -> Bytes {
        std::mem::replace(&mut self.text, Bytes::new(self.alloc))
    }

    fn begin(&mut self, byte: u8) -> Result<(), LineFault> {
        match byte {
            b' ' | b'\t' => Ok(()),
            b'"' => self.move_to(Place::Quoted),
            _ => self.put(byte, Place::Plain),
        }
    }

    fn go_on(&mut self, byte: u8) -> Result<(), LineFault> {
        match byte {
            b' ' | b'\t' => {
                let text = self.taken();
                self.words.push(Word::Plain(text))?;
                self.move_to(Place::Between)
            }
            b'"' => Err(LineFault::Malformed),
            _ => self.put(byte, Place::Plain),
        }
    }

    fn quoted(&mut self, byte: u8) -> Result<(), LineFault> {
        match byte {
            b'"' => {
                let text = self.taken();
                self.words.push(Word::Quoted(text))?;
                self.move_to(Place::Closed)
            }
            b'\\' => self.move_to(Place::Escape),
            _ => self.put(byte, Place::Quoted),
        }
    }

    fn escape(&mut self, byte: u8) -> Result<(), LineFault> {
        match byte {
            b'"' | b'\\' => self.put(byte, Place::Quoted),
            b'n' => self.put(b'\n', Place::Quoted),
            b'r' => self.put(b'\r', Place::Quoted),
            b't' => self.put(b'\t', Place::Quoted),
            b'x' => self.move_to(Place::High),
            _ => Err(LineFault::Malformed),
        }
    }

    fn high(&mut self, byte: u8) -> Result<(), LineFault> {
        match digit(byte) {
            Some(high) => self.move_to(Place::Low(high)),
            None => Err(LineFault::Malformed),
        }
    }

    fn low(&mut self, high: u8, byte: u8) -> Result<(), LineFault> {
        match digit(byte) {
            Some(low) => self.put((high << 4) | low, Place::Quoted),
            None => Err(LineFault::Malformed),
        }
    }

    // The words, where the line may end here.
    fn end(self) -> Result<Seq<Word>, LineFault> {
        let Reader {
            mut words,
            text,
            place,
            ..
        } = self;
        match place {
            Place::Between | Place::Closed => Ok(words),
            Place::Plain => {
                words.push(Word::Plain(text))?;
                Ok(words)
            }
            _ => Err(LineFault::Malformed),
        }
    }
}

fn is_blank(byte: u8) -> bool {
    byte == b' ' || byte == b'\t'
}

// The value of a hexadecimal digit.
fn digit(byte: u8) -> Option<u8> {
    match byte {
        b'0'..=b'9' => Some(byte - b'0'),
        b'a'..=b'f' => Some(byte - b'a' + 10),
        b'A'..=b'F' => Some(byte - b'A' + 10),
        _ => None,
    }
}
