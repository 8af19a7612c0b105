//! What a connection judges by.
use sec_compile::Ruleset;
use std::alloc::Global;
use std::marker::Model;
use std::sync::Arc;

/// A share of the rules of an application.
pub type Handle = Arc<Ruleset, Global>;

/// The rules of a request, and the generation of the list that they are of.
#[derive(Drop)]
pub struct SharedRules {
    pub(crate) generation: u64,
    pub(crate) handle: Handle,
}

impl Model for SharedRules {
    ghost use Rattle.std.specs.Arc.{arc_value};
    ghost use Rattle.conn_worker.specs.Entries.{Rules};

    ghost Value = { Rules };

    ghost view = { λ r. (r.generation, arc_value r.handle) };
}
