//! What the words of a command line ask for.
//!
//! Of the words `replay`, `--plain` and `agent.toml`, `read_words(alloc, words)` makes
//! `Command::Replay { plain: true, conf }`; of the words `replay` and `--fast` it makes `Command::Other`.
//!
//! `command_of words` in `specs/Words.antt` says which command that is, over the reading that clap's
//! definition of a command line gives.
#![tactic(auto)]

mod command;
mod definition;
mod help;
mod names;
mod numbers;
mod values;
mod words;

pub use command::Command;
pub use words::read_words;
