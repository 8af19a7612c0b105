//! The characters that mean something in the text of rules.

/// It parts words, and the phrases of an operator.
pub const SPACE: u8 = b' ';
/// A blank like the space.
pub const TAB: u8 = b'\t';
/// It may stand before a line feed, and is dropped there.
pub const CARRIAGE_RETURN: u8 = b'\r';
/// It ends a physical line.
pub const LINE_FEED: u8 = b'\n';
/// It joins a line to the next, and stands before a quote that does not close.
pub const BACKSLASH: u8 = b'\\';
/// It opens and closes a word.
pub const QUOTE: u8 = b'"';
/// It opens and closes the value of an action, and the selector of a target.
pub const SINGLE_QUOTE: u8 = b'\'';
/// A line that begins with it is a comment.
pub const HASH: u8 = b'#';
/// It parts actions, addresses and ranges.
pub const COMMA: u8 = b',';
/// It parts a name and what is said of it: the value of an action, the selector of a target.
pub const COLON: u8 = b':';
/// It parts targets, and opens and closes the hexadecimal digits of a phrase.
pub const BAR: u8 = b'|';
/// It opens and closes the pattern of a selector.
pub const SLASH: u8 = b'/';
/// It parts a variable and the key of a row in a reference.
pub const DOT: u8 = b'.';
/// It parts a name and the value that it is set to, in `setvar` and `ctl`.
pub const EQUALS: u8 = b'=';
/// The value of `setvar` that follows it is added.
pub const PLUS: u8 = b'+';
/// The value of `setvar` that follows it is subtracted; in a range it parts the two ends.
pub const MINUS: u8 = b'-';
/// It negates: an operator, a target, a variable that `setvar` takes away.
pub const EXCLAMATION_MARK: u8 = b'!';
/// It counts the rows of a target.
pub const AMPERSAND: u8 = b'&';
/// The name of an operator follows it.
pub const AT_SIGN: u8 = b'@';
/// A reference of a macro begins with it and an opening brace.
pub const PERCENT: u8 = b'%';
/// The second character of a reference.
pub const OPENING_BRACE: u8 = b'{';
/// The last character of a reference.
pub const CLOSING_BRACE: u8 = b'}';
