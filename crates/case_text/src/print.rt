use crate::word::Word;
use waf_plain::{Bytes, NoMemory};

/// Appends the words as a case line has them, each with a blank before it.
pub fn print_words(words: &[Word], text: &mut Bytes) -> Result<(), NoMemory> {
    for word in words {
        text.push(b' ')?;
        print_word(word, text)?;
    }
    Ok(())
}

fn print_word(word: &Word, text: &mut Bytes) -> Result<(), NoMemory> {
    match word {
        Word::Plain(bytes) => text.append(bytes.as_slice()),
        Word::Quoted(bytes) => print_quoted(bytes.as_slice(), text),
    }
}

fn print_quoted(bytes: &[u8], text: &mut Bytes) -> Result<(), NoMemory> {
    text.push(b'"')?;
    for byte in bytes {
        print_byte(*byte, text)?;
    }
    text.push(b'"')
}

fn print_byte(byte: u8, text: &mut Bytes) -> Result<(), NoMemory> {
    match byte {
        b'"' => text.append(b"\\\""),
        b'\\' => text.append(b"\\\\"),
        b' '..=b'~' => text.push(byte),
        _ => {
            text.append(b"\\x")?;
            text.push(digit(byte >> 4))?;
            text.push(digit(byte & 15))
        }
    }
}

fn digit(value: u8) -> u8 {
    if value < 10 {
        return b'0' + value;
    }
    b'a' + (value & 15) - 10
}
