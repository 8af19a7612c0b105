//! The transformations of values, and chains of them.
#![tactic(auto)]

mod absence;
mod alphabets;
mod apply_names;
mod characters;
mod command;
mod comments;
mod encodings;
mod letters;
mod limit;
mod paths;
mod whitespace;

pub use apply_names::{apply, apply_chain};
