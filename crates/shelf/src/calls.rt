//! Calls and replies.
use crate::apps::{Apps, Settings};
use waf_plain::Bytes;

/// What a look for an application answers. The list stays as it is.
#[derive(Drop)]
pub enum Look<R> {
    /// A share of its rules, and the generation of the list that they are of.
    Found {
        generation: u64,
        rules: R,
        settings: Settings,
    },
    /// The list has no application of this name, and none that serves for it.
    UnknownApp {
        generation: u64,
    },
    /// No memory for a further share of the rules.
    NoMemory,
}

/// What publishing answers.
#[derive(Clone, Copy, Debug, PartialEq, Eq)]
pub enum Published {
    /// The new list is in force, under this generation.
    Generation(u64),
    /// No further generation can be numbered. The list is as before.
    Worn,
}

/// A call of the shelf, with what it hands in.
#[derive(Drop)]
pub enum Call<R> {
    Look(Bytes),
    Publish(Apps<R>),
}

/// What a call answers, each by its own kind.
#[derive(Drop)]
pub enum Reply<R> {
    OfLook(Look<R>),
    OfPublish(Published),
}
