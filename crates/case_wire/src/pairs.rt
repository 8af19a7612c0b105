use crate::values::put_pair;
use case_text::{Answer, small_number};
use spop_data::{DataFault, Pair, read_pairs, write_pair};
use std::alloc::Global;
use waf_plain::{Bytes, NoMemory};

/// `COUNT BYTES`, then each pair, how many bytes they have together, and the bytes that are written for
/// them; or `invalid`.
pub fn answer(alloc: Global, given: &[Bytes], out: &mut Answer) {
    let [count, bytes] = given else {
        return out.malformed();
    };
    let Some(count) = small_number(count.as_slice()) else {
        return out.malformed();
    };
    match read_pairs(alloc, bytes.as_slice(), count) {
        Err(DataFault::NoMemory) => out.no_memory(),
        Err(DataFault::Invalid) => out.plain(b"invalid"),
        Ok((pairs, used)) => put_pairs(alloc, pairs.as_slice(), used, out),
    }
}

fn put_pairs(alloc: Global, pairs: &[Pair], used: u64, out: &mut Answer) {
    let mut written = Bytes::new(alloc);
    for pair in pairs {
        put_pair(pair, out);
        write(pair, &mut written, out);
    }
    out.number(used);
    out.quoted(written.as_slice())
}

fn write(pair: &Pair, written: &mut Bytes, out: &mut Answer) {
    match write_pair(pair, written) {
        Ok(()) => {}
        Err(NoMemory) => out.no_memory(),
    }
}
