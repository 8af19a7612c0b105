//! Numbers as SPOP spells them: one to ten bytes, the small ones in one (SPOE.txt, 3.1).
//!
//! `write_varint(300, &mut out)` appends `fc 03`, and `read_varint(&[0xfc, 0x03])` answers
//! `Varint::Read { value: 300, used: 2 }`.
//!
//! `Spells bytes value` in `specs/Varint.antt` says which bytes spell a number.
#![tactic(auto)]

mod law;
mod read;
mod write;

pub use law::{one_reading, one_spelling};
pub use read::{Varint, read_varint, split_varint};
pub use write::{MAX_LENGTH, varint_length, write_varint};
