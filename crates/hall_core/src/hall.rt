//! The table.
use crate::rows::Rows;
use std::marker::Model;

/// One shard of the table. It takes the memory of all its rows when it is made, and no more later.
#[derive(Drop)]
pub struct Hall<P> {
    pub(crate) shard: u32,
    pub(crate) capacity: u32,
    pub(crate) given: u64,
    pub(crate) rows: Rows<P>,
}

impl<P> Model for Hall<P> {
    ghost use Rattle.std.specs.Prelude.{◌≡◌};
    ghost use Rattle.hall_core.specs.Found.{UpTo};
    ghost use Rattle.hall_core.specs.State.{State};

    ghost Value = { State P };

    ghost view = { λ h. record { shard = h.shard; capacity = h.capacity; given = h.given; rows = h.rows.rows } };

    ghost invariant = { λ h. (h.capacity ≡ h.rows.capacity) × UpTo h.given h.rows.rows };
}
