use case_text::{Answer, small_number};
use spop_hello::{Refuse, Terms, disconnect_frame, hello_frame, negotiate};
use std::alloc::Global;
use waf_plain::{Bytes, NoMemory};

/// `OWN-SIZE PAYLOAD`, then `terms`, the size, `pipelining` or `one-by-one`, `check` or `serve`, and the
/// agent's HELLO; or `refused`, the status and the agent's DISCONNECT. `leave STATUS`, then the agent's
/// DISCONNECT.
pub fn answer(alloc: Global, given: &[Bytes], out: &mut Answer) {
    let [first, second] = given else {
        return out.malformed();
    };
    match first.as_slice() {
        b"leave" => leave(alloc, second.as_slice(), out),
        size => meet(alloc, size, second.as_slice(), out),
    }
}

fn leave(alloc: Global, status: &[u8], out: &mut Answer) {
    match small_number(status) {
        Some(status) => put_leave(alloc, status, out),
        None => out.malformed(),
    }
}

fn meet(alloc: Global, size: &[u8], payload: &[u8], out: &mut Answer) {
    let Some(own_size) = small_number(size) else {
        return out.malformed();
    };
    match negotiate(alloc, payload, own_size) {
        Ok(terms) => put_terms(alloc, &terms, out),
        Err(Refuse::NoMemory) => out.no_memory(),
        Err(Refuse::Status(status)) => {
            out.named_number(b"refused", u64::from(status));
            put_leave(alloc, status, out)
        }
    }
}

fn put_terms(alloc: Global, terms: &Terms, out: &mut Answer) {
    out.named_number(b"terms", u64::from(terms.size));
    out.choice(terms.pipelining, b"pipelining", b"one-by-one");
    out.choice(terms.check, b"check", b"serve");
    let mut frame = Bytes::new(alloc);
    let written = hello_frame(alloc, terms, &mut frame);
    put_frame(written, frame.as_slice(), out)
}

fn put_leave(alloc: Global, status: u32, out: &mut Answer) {
    match status {
        0 | 3 | 4 | 5 | 6 | 7 | 8 | 9 | 10 | 13 => {
            let mut frame = Bytes::new(alloc);
            let written = disconnect_frame(alloc, status, &mut frame);
            put_frame(written, frame.as_slice(), out)
        }
        _ => out.malformed(),
    }
}

fn put_frame(written: Result<(), NoMemory>, frame: &[u8], out: &mut Answer) {
    match written {
        Ok(()) => out.quoted(frame),
        Err(NoMemory) => out.no_memory(),
    }
}
