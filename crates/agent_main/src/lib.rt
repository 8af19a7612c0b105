//! The commands of the agent over whatever gives it words, files, input and output.
//!
//! `offline_main(alloc, words, &mut files, &mut input, &mut output)` does what the words ask for, and answers the
//! exit status. What `once` writes for a connection stands in `specs/Run.antt` and `specs/Judge.antt`, what
//! `check` prints in `specs/Check.antt`, what `replay` prints in `specs/Replay.antt`,
//! what `generate` prints in `specs/Generate.antt`.
#![tactic(auto)]

mod agent;
mod check;
mod entry;
mod generate;
mod judge;
mod listings;
mod offline;
mod once;
mod playing;
mod replay;
mod script;
mod serve;
mod summary;
mod verdicts;
mod words;

pub use agent::agent_main;
pub use offline::offline_main;
