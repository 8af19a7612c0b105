//! The numbers of the types (SPOE.txt, 3.1), and what stands beside a type in its byte.

pub const NULL: u8 = 0;

pub const BOOLEAN: u8 = 1;

pub const INT32: u8 = 2;

pub const UINT32: u8 = 3;

pub const INT64: u8 = 4;

pub const UINT64: u8 = 5;

pub const IPV4: u8 = 6;

pub const IPV6: u8 = 7;

pub const STRING: u8 = 8;

pub const BINARY: u8 = 9;

/// The type is what the byte leaves when it is divided by this: its low four bits.
pub const FLAGS: u8 = 0x10;

/// The bit that is set where a BOOLEAN is true, and the flag that it stands for.
pub const TRUE_BIT: u32 = 4;

pub const TRUE: u8 = 0x10;

pub const IPV4_LENGTH: usize = 4;

pub const IPV6_LENGTH: usize = 16;
