//! The script of `generate`, which a seed and a number of turns decide, and the rules that judge it.
//!
//! `script(alloc, 1, 5)` is the commands that open sixteen connections and let five requests and five responses
//! come, as `replay` reads them from a text.
//!
//! `script seed count` in `specs/Workload.antt` says which commands these are, and `specs/Draws.antt` which numbers
//! decide them.
#![tactic(auto)]

mod commands;
mod draws;
mod frames;
mod law;
mod messages;
mod turn;
mod turns;
mod world;

pub use commands::{CONNECTIONS, SHARDS, script};
pub use law::scripts_are_playable;
pub use world::{RULES, RULES_NAME};
