ghost use Rattle.std.specs.Prelude.{◌≡◌, ℕ, map, take, filter, IfOk};
ghost use Rattle.std.specs.Char.{to_ascii_lowercase, to_ascii_uppercase};
ghost use Rattle.sec_decoders.specs.declared.pieces.TheConstants.{LIMIT};
ghost use Rattle.sec_transforms.specs.Alphabets.{is_not_null, null_as_space, plus_as_space, backslash_as_slash};

use crate::characters::SLASH;
use crate::limit::cut;
use memchr::memchr;
use sec_decoders::characters::{BACKSLASH, PLUS, SPACE};
use std::alloc::Global;
use waf_plain::{Bytes, NoMemory};

/// Another alphabet: what each byte becomes.
pub(crate) trait Alphabet {
    ghost image: { ℕ → ℕ };

    fn image(&self, byte: u8) -> u8
        ensures { result ≡ image byte };
}

/// The value in another alphabet.
pub(crate) fn mapped<A: Alphabet>(
    alloc: Global,
    alphabet: &A,
    value: &[u8],
) -> Result<Bytes, NoMemory>
    ensures { IfOk result (λ bytes. bytes ≡ map A.image value.now) }
{
    let mut out = Bytes::new(alloc);
    for byte in value {
        out.push(alphabet.image(*byte))?;
    }
    Ok(out)
}

struct NullsAsSpaces;

impl Alphabet for NullsAsSpaces {
    ghost image = { null_as_space };

    fn image(&self, byte: u8) -> u8 {
        if byte == 0 { SPACE } else { byte }
    }
}

/// `+` is a space.
pub(crate) struct PlusAsSpace;

impl Alphabet for PlusAsSpace {
    ghost image = { plus_as_space };

    fn image(&self, byte: u8) -> u8 {
        if byte == PLUS { SPACE } else { byte }
    }
}

/// `\` is a `/`.
pub(crate) struct Slashes;

impl Alphabet for Slashes {
    ghost image = { backslash_as_slash };

    fn image(&self, byte: u8) -> u8 {
        if byte == BACKSLASH { SLASH } else { byte }
    }
}

/// `lowercase`.
pub(crate) fn lowercase(alloc: Global, value: &[u8]) -> Result<Bytes, NoMemory>
    ensures { IfOk result (λ bytes. bytes ≡ take LIMIT (map to_ascii_lowercase value.now)) }
{
    Ok(cut(Bytes::from_vec(value.to_ascii_lowercase(alloc)?)))
}

/// `uppercase`.
pub(crate) fn uppercase(alloc: Global, value: &[u8]) -> Result<Bytes, NoMemory>
    ensures { IfOk result (λ bytes. bytes ≡ take LIMIT (map to_ascii_uppercase value.now)) }
{
    Ok(cut(Bytes::from_vec(value.to_ascii_uppercase(alloc)?)))
}

/// `replaceNulls`.
pub(crate) fn replace_nulls(alloc: Global, value: &[u8]) -> Result<Bytes, NoMemory>
    ensures { IfOk result (λ bytes. bytes ≡ take LIMIT (map null_as_space value.now)) }
{
    Ok(cut(mapped(alloc, &NullsAsSpaces, value)?))
}

fn without_nulls(alloc: Global, value: &[u8]) -> Result<Bytes, NoMemory>
    ensures { IfOk result (λ bytes. bytes ≡ filter is_not_null value.now) }
{
    let kept = value
        .iter()
        .copied()
        .filter(|byte| *byte != 0)
        .collect(alloc)?;
    Ok(Bytes::from_vec(kept))
}

/// `removeNulls`.
pub(crate) fn remove_nulls(alloc: Global, value: &[u8]) -> Result<Bytes, NoMemory>
    ensures { IfOk result (λ bytes. bytes ≡ take LIMIT (filter is_not_null value.now)) }
{
    match memchr(0, value) {
        None => Ok(cut(Bytes::copy(alloc, value)?)),
        Some(_) => Ok(cut(without_nulls(alloc, value)?)),
    }
}
