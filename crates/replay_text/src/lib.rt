//! The script of a replay, and the lines that it prints.
#![tactic(auto)]

mod command;
mod numbers;
mod opened;
mod results;
mod script;

pub use command::Command;
pub use results::write_seen;
pub use script::{ScriptFault, read_script};
