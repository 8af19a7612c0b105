//! Messages of a NOTIFY and the ACK that answers it (SPOE.txt, 3.2.6 and 3.2.7).
//!
//! `read_messages(alloc, frame.payload.as_slice())` makes a list of messages, each a name and its
//! arguments. `write_ack(alloc, frame.stream, frame.frame, &actions, size, &mut out)` appends the ACK.
//!
//! `SpellsMessage bytes message` in `specs/Message.antt` says which bytes spell a message, and
//! `ack_frame stream frame actions` in `specs/Ack.antt` which frame answers.
#![tactic(auto)]

mod ack;
mod law;
mod message;

pub use ack::{AckFault, Action, write_ack};
pub use law::{ack_again, messages_are_read};
pub use message::{Message, read_messages};
