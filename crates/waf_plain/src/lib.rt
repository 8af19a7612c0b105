//! The lists that every other crate passes along, and what they share: `Bytes`, `Seq`, the one word
//! for want of memory, and a counter that only contracts see.
#![tactic(auto)]

mod bytes;
mod memory;
mod seq;
mod steps;

pub use bytes::Bytes;
pub use memory::NoMemory;
pub use seq::Seq;
pub use steps::Steps;
