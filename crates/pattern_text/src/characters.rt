//! The bytes that patterns write by an escape, or that have a rule of their own.

/// `\a`.
pub const BELL: u8 = 7;
/// `\b` in a class.
pub const BACKSPACE: u8 = 8;
/// `\t`.
pub const TAB: u8 = b'\t';
/// `\n`.
pub const LINE_FEED: u8 = b'\n';
/// `\f`.
pub const FORM_FEED: u8 = 12;
/// `\r`.
pub const CARRIAGE_RETURN: u8 = b'\r';
/// `\e`.
pub const ESCAPE: u8 = 27;
/// The first digit.
pub const ZERO: u8 = b'0';
/// The first letter, the hexadecimal digit ten.
pub const CAPITAL_A: u8 = b'A';
/// It begins a repetition of a counted kind, or stands for itself.
pub const OPENING_BRACE: u8 = b'{';
/// It ends such a repetition, or stands for itself.
pub const CLOSING_BRACE: u8 = b'}';
