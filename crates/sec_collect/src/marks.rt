// The bytes at which the texts of a request or a response are cut, and with which those of a
// transaction are put together.

pub(crate) const SPACE: u8 = b' ';

pub(crate) const AMPERSAND: u8 = b'&';

pub(crate) const COMMA: u8 = b',';

pub(crate) const SLASH: u8 = b'/';

pub(crate) const COLON: u8 = b':';

pub(crate) const SEMICOLON: u8 = b';';

pub(crate) const QUESTION_MARK: u8 = b'?';

pub(crate) const LEFT_BRACKET: u8 = b'[';

pub(crate) const BACKSLASH: u8 = b'\\';

pub(crate) const RIGHT_BRACKET: u8 = b']';
