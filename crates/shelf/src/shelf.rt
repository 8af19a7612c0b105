//! The list of applications that is in force.
use crate::Apps;
use std::marker::Model;

/// The applications that were published last, and how often some were.
#[derive(Drop)]
pub struct Shelf<R> {
    pub(crate) generation: u64,
    pub(crate) apps: Apps<R>,
}

impl<R> Model for Shelf<R> {
    ghost use Rattle.shelf.specs.State.{State};

    ghost Value = { State R };

    ghost view = { λ s. record { generation = s.generation; apps = s.apps } };
}
