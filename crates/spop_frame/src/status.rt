//! The statuses of an agent's DISCONNECT (SPOE.txt, 3.5).

/// The connection ends since HAProxy ends it.
pub const NORMAL: u32 = 0;
/// A frame is longer than its limit.
pub const TOO_BIG: u32 = 3;
/// A frame is out of form or out of place.
pub const INVALID: u32 = 4;
/// The client's HELLO has no `supported-versions`.
pub const NO_VERSIONS: u32 = 5;
/// The client's HELLO has no `max-frame-size`.
pub const NO_SIZE: u32 = 6;
/// The client's HELLO has no `capabilities`.
pub const NO_CAPABILITIES: u32 = 7;
/// The client's HELLO has no version that the agent speaks.
pub const BAD_VERSION: u32 = 8;
/// The size in the client's HELLO is out of range.
pub const BAD_SIZE: u32 = 9;
/// The frame is a fragment.
pub const FRAGMENT: u32 = 10;
/// The agent is out of memory.
pub const NO_MEMORY: u32 = 13;
