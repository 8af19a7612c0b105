// Sets of addresses: whether a text is in the set of some words.

use case_text::{Answer, items};
use ip_set::{IpFault, IpSet};
use std::alloc::Global;
use waf_plain::{Bytes, NoMemory, Seq};

/// `WORDS TEXT`: the words between commas, and a text that may be in their set.
pub fn answer(alloc: Global, given: &[Bytes], out: &mut Answer) {
    let [words, text] = given else {
        return out.malformed();
    };
    match items(alloc, words.as_slice(), b',') {
        Ok(words) => put_whether(alloc, &words, text.as_slice(), out),
        Err(NoMemory) => out.no_memory(),
    }
}

// Of a word that is no address and no block, the place comes, counted from 0.
fn put_whether(alloc: Global, words: &Seq<Bytes>, text: &[u8], out: &mut Answer) {
    match IpSet::read(alloc, words) {
        Ok(set) => out.choice(set.contains(text), b"yes", b"no"),
        Err(IpFault::Bad { at }) => out.named_number(b"bad", at),
        Err(IpFault::NoMemory) => out.no_memory(),
    }
}
