//! A request and a response of HTTP as an agent is told of them, and the rows of names and values
//! in their texts: header fields, cookies and arguments.
//!
//! `header_rows(alloc, b"Host: a\r\nCookie: b=c; d\r\n")` makes the rows `Host`, "a" and `Cookie`,
//! "b=c; d"; `cookie_rows` of these makes `b`, "c" and `d`, ""; `argument_rows(alloc, b"e=f+g&h")` makes
//! `e`, "f g" and `h`, "".
//!
//! What the rows of a text are is said by functions on lists of the same names, in `specs/Headers.antt`,
//! `specs/Cookies.antt` and `specs/Arguments.antt`.
#![tactic(auto)]

mod address;
mod arguments;
mod cookies;
mod headers;
mod pieces;
mod row;
mod transaction;

pub use address::{Address, address_text};
pub use arguments::argument_rows;
pub use cookies::cookie_rows;
pub use headers::header_rows;
pub use pieces::{cut, trimmed};
pub use row::NameValue;
pub use transaction::{Request, Response};
