ghost use Rattle.std.specs.Prelude.{◌≡◌, ◌≤◌, ℕ, List, length, take, drop, IfNone, IfOk, IfSome, OnOk, IsErrOf, Some, None};
ghost use Rattle.std.specs.Option.{option_map};
ghost use Rattle.spop_data.specs.Answer.{Gives, IsPrefix, IsInvalid};
ghost use Rattle.spop_data.specs.Data.{IsCounted, IsText, SpellsData, SpellsPair, SpellsPairs};
ghost use Rattle.spop_data.specs.Reading.{varint_at, cut_at, counted_at, int32_at, uint32_at, int64_at, uint64_at};
ghost use Rattle.spop_data.specs.Reading.{ipv4_at, ipv6_at, text_at, binary_at, value_at, data_at, pair_at, pairs_at};

use crate::{Data, DataFault, Pair, kind};
use spop_varint::{Varint, read_varint};
use std::alloc::Global;
use waf_plain::{Bytes, Seq};

/// Reads the value that the bytes begin with, and how many it has. Others may follow. Flag bits without a
/// meaning are passed over, and a type of 10 to 15 is `Invalid`, as is a 32-bit number that does not
/// fit its type (SPOE.txt, 3.1).
pub fn read_data(alloc: Global, input: &[u8]) -> Result<(Data, u64), DataFault>
    ensures read { IfOk result (λ x. IsPrefix SpellsData input.now x.0 x.1) }
    ensures invalid { IsErrOf result DataFault.Invalid → IsInvalid SpellsData input.now }
    ensures never { IsInvalid SpellsData input.now → OnOk result ⊥ }
    ensures exact { Gives (λ x. (x.0, drop x.1 input.now)) result (data_at input.now) }
{
    let (value, rest) = data_of(alloc, input)?;
    Ok((value, (input.len() - rest.len()) as u64))
}

/// Reads the name and the value that the bytes begin with, and how many they have. Others may follow.
pub fn read_pair(alloc: Global, input: &[u8]) -> Result<(Pair, u64), DataFault>
    ensures read { IfOk result (λ x. IsPrefix SpellsPair input.now x.0 x.1) }
    ensures invalid { IsErrOf result DataFault.Invalid → IsInvalid SpellsPair input.now }
    ensures never { IsInvalid SpellsPair input.now → OnOk result ⊥ }
    ensures exact { Gives (λ x. (x.0, drop x.1 input.now)) result (pair_at input.now) }
{
    let (pair, rest) = pair_of(alloc, input)?;
    Ok((pair, (input.len() - rest.len()) as u64))
}

/// Reads so many pairs that the bytes begin with, and how many they have. Others may follow.
pub fn read_pairs(alloc: Global, input: &[u8], count: u32) -> Result<(Seq<Pair>, u64), DataFault>
    ensures read { IfOk result (λ x. IsPrefix (SpellsPairs count) input.now x.0 x.1) }
    ensures invalid { IsErrOf result DataFault.Invalid → IsInvalid (SpellsPairs count) input.now }
    ensures never { IsInvalid (SpellsPairs count) input.now → OnOk result ⊥ }
    ensures exact { Gives (λ x. (x.0, drop x.1 input.now)) result (pairs_at count input.now) }
{
    let (pairs, rest) = pairs_of(alloc, input, count)?;
    Ok((pairs, (input.len() - rest.len()) as u64))
}

// So many pairs, and the rest.
#[tactic(auto, unfolding(crate::specs::Reading::pairs_at))]
fn pairs_of(alloc: Global, bytes: &[u8], count: u32) -> Result<(Seq<Pair>, &[u8]), DataFault>
    ensures { Gives (λ x. (x.0, x.1.now)) result (pairs_at count bytes.now) }
{
    let mut pairs = Seq::new(alloc);
    let mut rest = bytes;
    for _ in 0..count {
        let (pair, more) = pair_of(alloc, rest)?;
        pairs.push(pair)?;
        rest = more;
    }
    Ok((pairs, rest))
}

// The pair that the bytes begin with, and the rest.
#[tactic(auto, unfolding(crate::specs::Reading::pair_at))]
fn pair_of(alloc: Global, bytes: &[u8]) -> Result<(Pair, &[u8]), DataFault>
    ensures { Gives (λ x. (x.0, x.1.now)) result (pair_at bytes.now) }
{
    let Some((name, rest)) = counted_of(bytes) else {
        return Err(DataFault::Invalid);
    };
    let (value, rest) = data_of(alloc, rest)?;
    let name = Bytes::copy(alloc, name)?;
    Ok((Pair { name, value }, rest))
}

// The value that the bytes begin with, and the rest.
fn data_of(alloc: Global, bytes: &[u8]) -> Result<(Data, &[u8]), DataFault>
    ensures { Gives (λ x. (x.0, x.1.now)) result (data_at bytes.now) }
{
    match bytes.split_first() {
        None => Err(DataFault::Invalid),
        Some((first, rest)) => value_of(alloc, *first, rest),
    }
}

// The value after the byte that has its type and its flags.
#[tactic(auto, unfolding(crate::specs::Reading::value_at))]
fn value_of(alloc: Global, first: u8, bytes: &[u8]) -> Result<(Data, &[u8]), DataFault>
    ensures { Gives (λ x. (x.0, x.1.now)) result (value_at first bytes.now) }
{
    match first % kind::FLAGS {
        kind::NULL => Ok((Data::Null, bytes)),
        kind::BOOLEAN => Ok((Data::Bool(first & kind::TRUE != 0), bytes)),
        kind::INT32 => int32_of(bytes),
        kind::UINT32 => uint32_of(bytes),
        kind::INT64 => int64_of(bytes),
        kind::UINT64 => uint64_of(bytes),
        kind::IPV4 => ipv4_of(bytes),
        kind::IPV6 => ipv6_of(bytes),
        kind::STRING => text_of(alloc, bytes),
        kind::BINARY => binary_of(alloc, bytes),
        _ => Err(DataFault::Invalid),
    }
}

#[tactic(auto, unfolding(crate::specs::Reading::int32_at))]
fn int32_of(bytes: &[u8]) -> Result<(Data, &[u8]), DataFault>
    ensures { Gives (λ x. (x.0, x.1.now)) result (int32_at bytes.now) }
{
    let Some((word, rest)) = varint_of(bytes) else {
        return Err(DataFault::Invalid);
    };
    match i32::try_from(word.cast_signed()) {
        Ok(number) => Ok((Data::Int32(number), rest)),
        Err(_) => Err(DataFault::Invalid),
    }
}

#[tactic(auto, unfolding(crate::specs::Reading::uint32_at))]
fn uint32_of(bytes: &[u8]) -> Result<(Data, &[u8]), DataFault>
    ensures { Gives (λ x. (x.0, x.1.now)) result (uint32_at bytes.now) }
{
    let Some((word, rest)) = varint_of(bytes) else {
        return Err(DataFault::Invalid);
    };
    match u32::try_from(word) {
        Ok(number) => Ok((Data::Uint32(number), rest)),
        Err(_) => Err(DataFault::Invalid),
    }
}

#[tactic(auto, unfolding(crate::specs::Reading::int64_at))]
fn int64_of(bytes: &[u8]) -> Result<(Data, &[u8]), DataFault>
    ensures { Gives (λ x. (x.0, x.1.now)) result (int64_at bytes.now) }
{
    match varint_of(bytes) {
        Some((word, rest)) => Ok((Data::Int64(word.cast_signed()), rest)),
        None => Err(DataFault::Invalid),
    }
}

#[tactic(auto, unfolding(crate::specs::Reading::uint64_at))]
fn uint64_of(bytes: &[u8]) -> Result<(Data, &[u8]), DataFault>
    ensures { Gives (λ x. (x.0, x.1.now)) result (uint64_at bytes.now) }
{
    match varint_of(bytes) {
        Some((word, rest)) => Ok((Data::Uint64(word), rest)),
        None => Err(DataFault::Invalid),
    }
}

#[tactic(auto, unfolding(crate::specs::Reading::ipv4_at, crate::specs::Reading::cut_at))]
fn ipv4_of(bytes: &[u8]) -> Result<(Data, &[u8]), DataFault>
    ensures { Gives (λ x. (x.0, x.1.now)) result (ipv4_at bytes.now) }
{
    match bytes.split_first_chunk::<{ kind::IPV4_LENGTH }>() {
        Some((address, rest)) => Ok((Data::Ipv4(*address), rest)),
        None => Err(DataFault::Invalid),
    }
}

#[tactic(auto, unfolding(crate::specs::Reading::ipv6_at, crate::specs::Reading::cut_at))]
fn ipv6_of(bytes: &[u8]) -> Result<(Data, &[u8]), DataFault>
    ensures { Gives (λ x. (x.0, x.1.now)) result (ipv6_at bytes.now) }
{
    match bytes.split_first_chunk::<{ kind::IPV6_LENGTH }>() {
        Some((address, rest)) => Ok((Data::Ipv6(*address), rest)),
        None => Err(DataFault::Invalid),
    }
}

#[tactic(auto, unfolding(crate::specs::Reading::text_at))]
fn text_of(alloc: Global, bytes: &[u8]) -> Result<(Data, &[u8]), DataFault>
    ensures { Gives (λ x. (x.0, x.1.now)) result (text_at bytes.now) }
{
    let Some((text, rest)) = counted_of(bytes) else {
        return Err(DataFault::Invalid);
    };
    let text = Bytes::copy(alloc, text)?;
    Ok((Data::Text(text), rest))
}

#[tactic(auto, unfolding(crate::specs::Reading::binary_at))]
fn binary_of(alloc: Global, bytes: &[u8]) -> Result<(Data, &[u8]), DataFault>
    ensures { Gives (λ x. (x.0, x.1.now)) result (binary_at bytes.now) }
{
    let Some((text, rest)) = counted_of(bytes) else {
        return Err(DataFault::Invalid);
    };
    let text = Bytes::copy(alloc, text)?;
    Ok((Data::Binary(text), rest))
}

/// A text after its length, with which the bytes begin, and the bytes after it, if the text is there whole. It
/// takes no memory. Names of messages and of pairs stand so.
pub fn read_text(input: &[u8]) -> Option<(&[u8], &[u8])>
    ensures read { IfSome result (λ x. IsText input.now x.0.now x.1.now) }
    ensures none { IfNone result (IsInvalid IsCounted input.now) }
    ensures exact { option_map (λ x. (x.0.now, x.1.now)) result ≡ counted_at input.now }
{
    counted_of(input)
}

// The same as a function on lists alone.
#[tactic(auto, unfolding(crate::specs::Reading::counted_at, crate::specs::Reading::cut_at))]
fn counted_of(bytes: &[u8]) -> Option<(&[u8], &[u8])>
    ensures { option_map (λ x. (x.0.now, x.1.now)) result ≡ counted_at bytes.now }
{
    let (count, rest) = varint_of(bytes)?;
    if count <= rest.len() as u64 {
        Some(rest.split_at(count as usize))
    } else {
        None
    }
}

// A number, and the rest.
#[tactic(auto, unfolding(crate::specs::Reading::varint_at))]
fn varint_of(bytes: &[u8]) -> Option<(u64, &[u8])>
    ensures { option_map (λ x. (x.0, x.1.now)) result ≡ varint_at bytes.now }
{
    match read_varint(bytes) {
        Varint::Read { value, used } => Some((value, bytes.split_at(used as usize).1)),
        _ => None,
    }
}
