//! What a text has nowhere, looked for in vectors.
ghost use Rattle.std.specs.Prelude.{◌+◌, length, IsTrue};
ghost use Rattle.memchr.specs.Find.{Nowhere, OccursAt, Passes, is_byte3};

use memchr::{memchr3, memmem};

/// How long a value is that is worth these searches before it is read.
pub(crate) const LONG: usize = 64;

/// Whether none of three bytes stands in a text.
pub(crate) fn lacks_bytes(text: &[u8], a: u8, b: u8, c: u8) -> bool
    ensures { IsTrue result → Nowhere (Passes (is_byte3 a b c) text.now) 0 (length text.now) }
{
    match memchr3(a, b, c, text) {
        None => true,
        Some(_) => false,
    }
}

/// Whether a text does not stand in another.
pub(crate) fn lacks(text: &[u8], needle: &[u8]) -> bool
    ensures { IsTrue result → Nowhere (OccursAt text.now needle.now) 0 (length text.now + 1) }
{
    match memmem::find(text, needle) {
        None => true,
        Some(_) => false,
    }
}
