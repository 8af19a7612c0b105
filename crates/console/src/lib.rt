//! What a running agent is asked on its input, line by line.
//!
//! ```text
//! match next_order(rt, &mut input) {
//!     Asked::Order(Order::Reload) => ..,
//!     Asked::End => ..,
//! }
//! ```
//!
//! What the bytes of a line ask for is `order_of` in `specs/Orders.antt`.
#![tactic(auto)]

mod next;
mod order;

pub use next::{Asked, next_order};
pub use order::Order;
