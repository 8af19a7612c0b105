//! The flags of a frame (SPOE.txt, 3.2.2). Other bits are passed over in reading and zero in writing.

/// Bit 0: the frame ends its message.
pub const FIN: u32 = 1;
/// Bit 1: the message is given up.
pub const ABORT: u32 = 2;
