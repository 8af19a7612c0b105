use case_text::{Answer, number};
use spop_varint::{Varint, read_varint, split_varint, write_varint};
use std::alloc::Global;
use waf_plain::{Bytes, NoMemory};

/// `read BYTES`, then the number and how many bytes spell it, and once more the number, with the bytes
/// after it; or `short` or `large`. `write NUMBER`, then its bytes.
pub fn answer(alloc: Global, given: &[Bytes], out: &mut Answer) {
    let [verb, word] = given else {
        return out.malformed();
    };
    match verb.as_slice() {
        b"read" => read(word.as_slice(), out),
        b"write" => write(alloc, word.as_slice(), out),
        _ => out.malformed(),
    }
}

fn read(bytes: &[u8], out: &mut Answer) {
    match read_varint(bytes) {
        Varint::Read { value, used } => {
            out.number(value);
            out.number(used)
        }
        Varint::Short => out.plain(b"short"),
        Varint::TooLarge => out.plain(b"large"),
    }
    match split_varint(bytes) {
        None => {}
        Some((value, rest)) => {
            out.number(value);
            out.quoted(rest)
        }
    }
}

fn write(alloc: Global, word: &[u8], out: &mut Answer) {
    let Some(value) = number(word) else {
        return out.malformed();
    };
    let mut bytes = Bytes::new(alloc);
    match write_varint(value, &mut bytes) {
        Ok(()) => out.quoted(bytes.as_slice()),
        Err(NoMemory) => out.no_memory(),
    }
}
