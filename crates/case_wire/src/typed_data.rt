use crate::values::{put_data, put_pair};
use case_text::Answer;
use spop_data::{DataFault, read_data, read_pair, read_text, write_data, write_pair, write_text};
use std::alloc::Global;
use waf_plain::{Bytes, NoMemory};

/// `data BYTES`, then the value's type and the value, how many bytes it has, and the bytes that are
/// written for it; `pair BYTES`, then the same behind the name; `text BYTES`, then the text, the bytes
/// after it, and those that are written for it. `invalid` where nothing of the kind begins there.
pub fn answer(alloc: Global, given: &[Bytes], out: &mut Answer) {
    let [verb, bytes] = given else {
        return out.malformed();
    };
    match verb.as_slice() {
        b"data" => read_value(alloc, bytes.as_slice(), out),
        b"pair" => read_named(alloc, bytes.as_slice(), out),
        b"text" => read_counted(alloc, bytes.as_slice(), out),
        _ => out.malformed(),
    }
}

fn read_value(alloc: Global, bytes: &[u8], out: &mut Answer) {
    match read_data(alloc, bytes) {
        Err(fault) => put_fault(fault, out),
        Ok((value, used)) => {
            put_data(&value, out);
            out.number(used);
            let mut written = Bytes::new(alloc);
            let is_written = write_data(&value, &mut written);
            put_written(is_written, written.as_slice(), out)
        }
    }
}

fn read_named(alloc: Global, bytes: &[u8], out: &mut Answer) {
    match read_pair(alloc, bytes) {
        Err(fault) => put_fault(fault, out),
        Ok((pair, used)) => {
            put_pair(&pair, out);
            out.number(used);
            let mut written = Bytes::new(alloc);
            let is_written = write_pair(&pair, &mut written);
            put_written(is_written, written.as_slice(), out)
        }
    }
}

fn read_counted(alloc: Global, bytes: &[u8], out: &mut Answer) {
    let Some((text, rest)) = read_text(bytes) else {
        return out.plain(b"invalid");
    };
    out.quoted(text);
    out.quoted(rest);
    let mut written = Bytes::new(alloc);
    let is_written = write_text(text, &mut written);
    put_written(is_written, written.as_slice(), out)
}

fn put_fault(fault: DataFault, out: &mut Answer) {
    match fault {
        DataFault::NoMemory => out.no_memory(),
        DataFault::Invalid => out.plain(b"invalid"),
    }
}

fn put_written(is_written: Result<(), NoMemory>, written: &[u8], out: &mut Answer) {
    match is_written {
        Ok(()) => out.quoted(written),
        Err(NoMemory) => out.no_memory(),
    }
}
