//! The characters that mean something in the words and values of operators.

/// The first of the whitespace from tab to carriage return.
pub const TAB: u8 = b'\t';
/// The last of the whitespace from tab to carriage return.
pub const CARRIAGE_RETURN: u8 = b'\r';
/// It is whitespace too.
pub const SPACE: u8 = b' ';
/// An escape of a URL begins with it.
pub const PERCENT: u8 = b'%';
/// The sign of a number that is not negative.
pub const PLUS: u8 = b'+';
/// The sign of a negative number; in a range it parts the two ends.
pub const MINUS: u8 = b'-';
/// The digit that no other follows at the start of an end of a range.
pub const ZERO: u8 = b'0';
