//! How many bytes escapes and their parts take.

/// `%u` or `\u` and four digits.
pub const FOUR_DIGIT_ESCAPE: usize = 6;
/// `\x` and two digits.
pub const X_ESCAPE: usize = 4;
/// `%` and two digits.
pub const PERCENT_ESCAPE: usize = 3;
/// `\` and the byte that it escapes.
pub const PAIR: usize = 2;
/// `&#x`.
pub const HEX_REFERENCE: usize = 3;
/// `&#`.
pub const DECIMAL_REFERENCE: usize = 2;
/// The most octal digits of an escape.
pub const MAX_OCTALS: usize = 3;
/// The most hexadecimal digits of an escape of CSS.
pub const MAX_CSS_DIGITS: usize = 6;
