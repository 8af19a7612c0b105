//! What a case of the protocol, of its messages, of configurations and of web parts comes to, by the public
//! calls of those crates. `varints::answer(alloc, given, out)` adds the words to `out`; it is the same for
//! each kind.
#![tactic(auto)]

pub mod acks;
pub mod addresses;
pub mod arguments;
pub mod configuration;
pub mod frames;
pub mod hello;
pub mod messages;
pub mod pairs;
pub mod rows;
pub mod typed_data;
mod values;
pub mod varints;
