//! Frames of SPOP, written, and read from a stream that comes in any pieces (SPOE.txt, 3.2).
//!
//! `framer.feed(bytes)` adds what a connection gave, and `framer.next(alloc)` takes the first frame off
//! as `Next::Frame(frame)`, once it is whole; `framer.head()` lends it where it lies, and `framer.skip()`
//! takes it off then. `write_frame(alloc, &frame, &mut out)` appends one.
//!
//! `SpellsFrame bytes frame` in `specs/Frame.antt` says which bytes spell a frame, and
//! `head_of limit bytes` in `specs/Head.antt` what a stream begins with.
#![tactic(auto)]

pub mod flag;
mod frame;
mod framer;
mod head;
mod header;
pub mod kind;
mod law;
pub mod status;
mod write;

pub use frame::Frame;
pub use framer::{Framer, Next};
pub use head::Head;
pub use header::Header;
pub use law::{frame_again, frame_is_spelled, one_frame_spelling};
pub use write::{WriteFault, write_frame};
