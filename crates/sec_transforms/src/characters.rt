//! The characters that transformations look for, besides those of escapes.

/// It parts the pieces of a path, and a comment of C begins and ends with it.
pub const SLASH: u8 = b'/';
/// The second character of `/*`, and the first of `*/`.
pub const ASTERISK: u8 = b'*';
/// The second character of `<!--`.
pub const EXCLAMATION_MARK: u8 = b'!';
/// Two of it begin a comment of SQL, and stand in `<!--` and `-->`.
pub const MINUS: u8 = b'-';
/// It stands for a piece of a path that says nothing; two of it go up.
pub const DOT: u8 = b'.';
/// Shells read it as a quote.
pub const SINGLE_QUOTE: u8 = b'\'';
/// The shell of Windows drops it.
pub const CIRCUMFLEX: u8 = b'^';
/// It parts words of a command line, as a space does.
pub const COMMA: u8 = b',';
/// No space stands before it in a command line.
pub const OPENING_PARENTHESIS: u8 = b'(';
/// The last capital letter of base64.
pub const CAPITAL_Z: u8 = b'Z';
/// The last small letter of base64.
pub const SMALL_Z: u8 = b'z';
