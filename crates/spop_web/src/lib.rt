//! The request or the response that the arguments of a message tell, or the first argument that is
//! bad; and the words and numbers of the answer.
//!
//! Of the arguments `id` "a1" and `method` "GET", `request_of(alloc, message.args)` makes a request
//! whose other texts are empty. Without `method` it answers `ArgFault::Bad { arg: Arg::Method, .. }`.
//!
//! `IsAsked args answer` in `specs/Request.antt` says which request that is or which argument is bad,
//! and `IsTold` in `specs/Response.antt` the same of a response.
#![tactic(auto)]

mod answer;
mod argument;
mod message;
mod reader;
mod request;
mod response;
mod value;

pub use answer::{AckError, AckVariable};
pub use argument::{Arg, ArgFault};
pub use message::{REQUEST_MESSAGE, RESPONSE_MESSAGE};
pub use request::{Asked, request_of};
pub use response::{Told, response_of};
