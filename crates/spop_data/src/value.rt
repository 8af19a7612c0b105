use crate::kind::{IPV4_LENGTH, IPV6_LENGTH};
use waf_plain::{Bytes, NoMemory};

/// A typed value, in the order of SPOP's types, whose numbers stand in `kind`.
#[derive(Clone, Debug, PartialEq, Drop)]
pub enum Data {
    Null,
    Bool(bool),
    Int32(i32),
    Uint32(u32),
    Int64(i64),
    Uint64(u64),
    Ipv4([u8; IPV4_LENGTH]),
    Ipv6([u8; IPV6_LENGTH]),
    Text(Bytes),
    Binary(Bytes),
}

/// A value and its name, as an argument of a message or a key of a HELLO.
#[derive(Clone, Debug, PartialEq, Drop)]
pub struct Pair {
    pub name: Bytes,
    pub value: Data,
}

/// Why no value was read.
#[derive(Clone, Copy, Debug, PartialEq, Eq)]
pub enum DataFault {
    /// No prefix of the bytes is such a value.
    Invalid,
    NoMemory,
}

impl From<NoMemory> for DataFault {
    ghost use Rattle.std.specs.Prelude.{◌≡◌};
    ghost use Rattle.spop_data.specs.declared.value.DataFault.TheVariants.{NoMemory as no_memory};

    ghost from_gives = { λ _ e. e ≡ no_memory };

    fn from(_: NoMemory) -> DataFault {
        DataFault::NoMemory
    }
}
