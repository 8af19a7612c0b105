ghost use Rattle.std.specs.Prelude.{◌≡◌};
ghost use Rattle.std.specs.Option.{option_copied};
ghost use Rattle.spop_data.specs.Answer.{Gives};
ghost use Rattle.spop_data.specs.Lists.{all_of};
ghost use Rattle.spop_data.specs.Reading.{pair_at};
ghost use Rattle.spop_hello.specs.Client.{is_true, size_of, text_of, value_of};

use spop_data::{Data, DataFault, Pair, read_pair};
use std::alloc::Global;
use waf_plain::Seq;

// The pairs that a payload is, one after the other up to its end.
pub fn pairs_in(alloc: Global, payload: &[u8]) -> Result<Seq<Pair>, DataFault>
    ensures { Gives (λ pairs. pairs) result (all_of pair_at payload.now) }
{
    let mut pairs = Seq::new(alloc);
    let mut rest = payload;
    while !rest.is_empty() {
        let (pair, more) = pair_of(alloc, rest)?;
        pairs.push(pair)?;
        rest = more;
    }
    Ok(pairs)
}

// The pair that the bytes begin with, and the rest.
fn pair_of(alloc: Global, bytes: &[u8]) -> Result<(Pair, &[u8]), DataFault>
    ensures { Gives (λ x. (x.0, x.1.now)) result (pair_at bytes.now) }
{
    let (pair, used) = read_pair(alloc, bytes)?;
    Ok((pair, bytes.split_at(used as usize).1))
}

// The text of that name.
pub fn text_in<'a>(pairs: &'a [Pair], name: &[u8]) -> Option<&'a [u8]>
    ensures { option_copied result ≡ text_of (value_of name.now pairs.now) }
{
    match value_in(pairs, name) {
        Some(Data::Text(text)) => Some(text.as_slice()),
        _ => None,
    }
}

// The number of that name; a negative one is below every size, as 0 is.
pub fn size_in(pairs: &[Pair], name: &[u8]) -> Option<u64>
    ensures { result ≡ size_of (value_of name.now pairs.now) }
{
    match value_in(pairs, name)? {
        Data::Int32(number) => Some(u64::try_from(*number).unwrap_or(0)),
        Data::Uint32(number) => Some(u64::from(*number)),
        Data::Int64(number) => Some(u64::try_from(*number).unwrap_or(0)),
        Data::Uint64(number) => Some(*number),
        _ => None,
    }
}

// Whether the value of that name is a BOOLEAN that is true.
pub fn is_true_in(pairs: &[Pair], name: &[u8]) -> bool
    ensures { result ≡ is_true (value_of name.now pairs.now) }
{
    matches!(value_in(pairs, name), Some(Data::Bool(true)))
}

// The value of the last pair of that name.
fn value_in<'a>(pairs: &'a [Pair], name: &[u8]) -> Option<&'a Data>
    ensures { option_copied result ≡ value_of name.now pairs.now }
{
    let mut found = None;
    for pair in pairs {
        if pair.name.as_slice() == name {
            found = Some(&pair.value);
        }
    }
    found
}
