//! Typed data of SPOP and pairs of a name and a value, both ways (SPOE.txt, 3.1).
//!
//! `write_data(&Data::Uint32(300), &mut out)` appends `03 fc 03`, and `read_data` of these bytes answers
//! the value and 3, the number of bytes that it has.
//!
//! `SpellsData bytes value` in `specs/Data.antt` says which bytes spell a value, and `SpellsPair` there
//! which a pair.
#![tactic(auto)]

pub mod kind;
mod law;
mod read;
mod value;
mod write;

pub use law::{one_value, spelled_is_read, written_is_spelled};
pub use read::{read_data, read_pair, read_pairs, read_text};
pub use value::{Data, DataFault, Pair};
pub use write::{write_data, write_pair, write_text};
