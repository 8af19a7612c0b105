ghost use Rattle.std.specs.Prelude.{◌≡◌, IfOk};
ghost use Rattle.sec_meaning.specs.Text.{text_of};

use std::alloc::Global;
use waf_plain::{Bytes, NoMemory};

/// Bytes that are borrowed from where they stand, or owned since they had to be made.
#[derive(Debug, Drop)]
pub enum Text<'a> {
    Borrowed(&'a [u8]),
    Owned(Bytes),
}

impl<'a> Text<'a> {
    /// The bytes.
    pub fn as_slice(&self) -> &[u8]
        ensures { result.now ≡ text_of self.now }
    {
        match self {
            Text::Borrowed(bytes) => bytes,
            Text::Owned(bytes) => bytes.as_slice(),
        }
    }

    /// The bytes to keep: a copy of those that are borrowed.
    pub fn into_bytes(self, alloc: Global) -> Result<Bytes, NoMemory>
        ensures { IfOk result (λ bytes. bytes ≡ text_of self.entry) }
    {
        match self {
            Text::Borrowed(bytes) => Bytes::copy(alloc, bytes),
            Text::Owned(bytes) => Ok(bytes),
        }
    }
}
