/// The work was done; for a connection, it closed in order.
pub const DONE: u8 = 0;

/// A connection ended otherwise.
pub const UNFINISHED: u8 = 1;

/// No command takes the words.
pub const OTHER_WORDS: u8 = 2;

/// What was read is refused.
pub const REFUSED: u8 = 3;

pub const READ_FAULT: u8 = 4;

pub const WRITE_FAULT: u8 = 5;

pub const OUT_OF_MEMORY: u8 = 6;

/// A door failed.
pub const DOOR_FAULT: u8 = 7;
