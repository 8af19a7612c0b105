//! The count and its tallies.
ghost use Rattle.std.specs.Prelude.{◌≡◌};

use crate::plays::Sums;
use crate::view::View;
use atomic_table::{Seat, Table, TableRule};
use std::alloc::Global;

/// What a count is made of. It is generic in all that its table takes, so that it is seen to be
/// `Send` and `Sync`.
#[derive(Drop)]
pub struct Counting<V, Q: TableRule<(), V, ()>> {
    // The word is 1 and the publishes, modulo 2^64.
    pub(crate) table: Table<(), V, (), Q, Global>,
    ghost sized: { table.shared.table_id.words ≡ 1 },
}

/// A count of publishes, which starts at 1. Share it by reference, and hand each thread a tally of
/// its own.
pub type PublishCount = Counting<View, Sums>;

/// The leave to step on one count. It has no bytes.
pub type Tally = Seat<(), View>;
