//! How far a text stands for itself: up to the first byte that may begin an escape.
ghost use Rattle.std.specs.Prelude.{◌<◌, ◌≤◌, length};
ghost use Rattle.memchr.specs.Find.{Nowhere, Passes, is_byte, is_byte2};

use memchr::{memchr, memchr2};

/// How many bytes there are before the first `byte`, and all of them where there is none.
pub(crate) fn len_before(byte: u8, text: &[u8]) -> usize
    ensures within { result ≤ length text.now }
    ensures none { Nowhere (Passes (is_byte byte) text.now) 0 result }
    ensures there { result < length text.now → Passes (is_byte byte) text.now result }
{
    match memchr(byte, text) {
        Some(at) => at,
        None => text.len(),
    }
}

/// How many bytes there are before the first of two, and all of them where there is neither.
pub(crate) fn len_before_either(first: u8, second: u8, text: &[u8]) -> usize
    ensures within { result ≤ length text.now }
    ensures none { Nowhere (Passes (is_byte2 first second) text.now) 0 result }
    ensures there { result < length text.now → Passes (is_byte2 first second) text.now result }
{
    match memchr2(first, second, text) {
        Some(at) => at,
        None => text.len(),
    }
}
