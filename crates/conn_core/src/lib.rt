//! A connection as a pure machine of needs: it takes its input in pieces of any size, says what it
//! needs next, and goes on with the answer.
//!
//! ```text
//! conn.feed(piece);
//! while conn.need() == Need::Write {
//!     sink.write(conn.out())?;
//!     conn.written();
//! }
//! ```
//!
//! What it needs over its whole input, given the replies that it gets, is `trace` in
//! `specs/Trace.antt`; when a connection stands for a state of that definition is `Stands` in
//! `specs/Stands.antt`.
#![tactic(auto)]

// the connection, and what it holds
mod conn;
mod farewell;
mod need;
mod stage;

// from its input to the next need
mod frames;
mod heard;
mod input;
mod messages;
mod outcome;

// the calls of each need
mod answer;
mod begin;
mod enter;
mod finish;
mod key;
mod leave;
mod look;
mod park;
mod resume;
mod retire;
mod write;

// several connections
mod seen;

pub use answer::{BegunAnswer, EndedAnswer, EntryAnswer, LookAnswer, Settings};
pub use conn::Conn;
pub use need::{Closing, Need};
pub use seen::Seen;
