//! The characters that mean something in the words of a set.

/// It parts an address and the number of its bits.
pub const SLASH: u8 = b'/';
/// A sign, which no number of bits has.
pub const PLUS: u8 = b'+';
/// No number of bits of two digits begins with it.
pub const ZERO: u8 = b'0';
