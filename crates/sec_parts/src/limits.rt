// The highest identifier of a rule; the lowest is 1.
pub const MAX_ID: u32 = 999_999_999;

// The phases are numbered from 1.
pub const MAX_PHASE: u32 = 5;

// The phases that have a name: after the bodies of a request and of a response, and the last.
pub const REQUEST_PHASE: u8 = 2;

pub const RESPONSE_PHASE: u8 = 4;

pub const LOGGING_PHASE: u8 = 5;

// The statuses of a response that an action may name.
pub const MIN_STATUS: u32 = 100;

pub const MAX_STATUS: u32 = 999;

// How many rules an action may skip; it is at least 1.
pub const MAX_SKIP: u32 = 20_000;

// The greatest number of a byte.
pub const MAX_BYTE: u32 = 255;
