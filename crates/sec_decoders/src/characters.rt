//! The characters that mean something in texts with escapes.

/// The first of the whitespace from tab to carriage return.
pub const TAB: u8 = b'\t';
/// It ends a line.
pub const LINE_FEED: u8 = b'\n';
/// The last of the whitespace from tab to carriage return.
pub const CARRIAGE_RETURN: u8 = b'\r';
/// What a `+` stands for.
pub const SPACE: u8 = b' ';
/// The space of Latin 1 that breaks no line.
pub const NO_BREAK_SPACE: u8 = 0xa0;
/// The escapes of C, CSS and JavaScript begin with it.
pub const BACKSLASH: u8 = b'\\';
/// The escapes of URLs begin with it.
pub const PERCENT: u8 = b'%';
/// A space in the query of a URL.
pub const PLUS: u8 = b'+';
/// The references of HTML begin with it.
pub const AMPERSAND: u8 = b'&';
/// A number follows it in a reference of HTML.
pub const HASH: u8 = b'#';
/// It ends a reference of HTML.
pub const SEMICOLON: u8 = b';';
/// `&quot`.
pub const QUOTE: u8 = b'"';
/// `&lt`.
pub const LESS_THAN: u8 = b'<';
/// `&gt`.
pub const GREATER_THAN: u8 = b'>';
/// The first digit.
pub const ZERO: u8 = b'0';
/// The highest digit that three octal digits of a byte begin with.
pub const THREE: u8 = b'3';
/// The last octal digit.
pub const SEVEN: u8 = b'7';
/// The last decimal digit.
pub const NINE: u8 = b'9';
/// The first letter, a hexadecimal digit.
pub const CAPITAL_A: u8 = b'A';
/// The last hexadecimal digit among the capital letters.
pub const CAPITAL_F: u8 = b'F';
/// Four hexadecimal digits follow it in an escape.
pub const CAPITAL_U: u8 = b'U';
/// Hexadecimal digits follow it in an escape.
pub const CAPITAL_X: u8 = b'X';
/// The first small letter, a hexadecimal digit; `\a` is a bell.
pub const SMALL_A: u8 = b'a';
/// `\b` is a backspace.
pub const SMALL_B: u8 = b'b';
/// The last hexadecimal digit among the small letters; `\f` is a form feed.
pub const SMALL_F: u8 = b'f';
/// `\n` is a line feed.
pub const SMALL_N: u8 = b'n';
/// `\r` is a carriage return.
pub const SMALL_R: u8 = b'r';
/// `\t` is a tab.
pub const SMALL_T: u8 = b't';
/// Four hexadecimal digits follow it in an escape.
pub const SMALL_U: u8 = b'u';
/// `\v` is a vertical tab.
pub const SMALL_V: u8 = b'v';
/// Hexadecimal digits follow it in an escape.
pub const SMALL_X: u8 = b'x';
/// What `\a` stands for.
pub const BELL: u8 = 7;
/// What `\b` stands for.
pub const BACKSPACE: u8 = 8;
/// What `\v` stands for.
pub const VERTICAL_TAB: u8 = 11;
/// What `\f` stands for.
pub const FORM_FEED: u8 = 12;
