//! HELLO and DISCONNECT: what the agent answers to the client's HELLO, and how it says why a connection
//! ends (SPOE.txt, 3.2.4, 3.2.5, 3.2.8 and 3.2.9).
//!
//! `negotiate(alloc, frame.payload.as_slice(), own_size)` answers the terms that both sides agree on, or
//! the status of the refusal; `hello_frame(alloc, &terms, &mut out)` appends the agent's HELLO, and
//! `disconnect_frame(alloc, status, &mut out)` its DISCONNECT.
//!
//! `terms_of own_size payload` in `specs/Terms.antt` says which terms, and `specs/Frames.antt` which frames.
#![tactic(auto)]

mod client;
mod frames;
mod items;
mod law;
mod terms;

pub use frames::{disconnect_frame, hello_frame};
pub use law::frames_again;
pub use terms::{MAX_SIZE, MIN_SIZE, Refuse, Terms, negotiate};
