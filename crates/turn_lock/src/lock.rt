//! The lock and its passes.
ghost use Rattle.std.specs.Prelude.{◌≡◌};

use crate::object::Object;
use crate::rule::Turns;
use crate::slot::Held;
use crate::view::View;
use atomic_table::{Seat, Table, TableRule};
use std::alloc::Global;
use std::snapshot::Snapshot;

/// What a lock is made of. It is generic in all that its table takes, so that it is seen to be
/// `Send` and `Sync` wherever that is; `TurnLock` names it at the types of an object.
#[derive(Drop)]
pub struct Locked<S, V, K, Q: TableRule<S, V, K>> {
    // Word 0 counts the turns that were drawn and word 1 those that ended, both modulo 2^64. The
    // others serve those that wait. The slot has the object.
    pub(crate) table: Table<S, V, K, Q, Global>,
    ghost sized: { (table.shared.table_id.words ≡ 5) × (table.shared.table_id.slots ≡ 1) },
}

/// A lock round an object. Share it by reference, and hand each thread a pass of its own.
pub type TurnLock<O> = Locked<
    Option<Held<O, <O as Object>::Call, <O as Object>::Reply>>,
    View<O, <O as Object>::Call, <O as Object>::Reply>,
    Snapshot<O>,
    Turns<O>,
>;

/// The leave to make calls through one lock. It has no bytes. One that is dropped takes its share
/// with it, so the lock can no longer be closed.
pub type Pass<O> = Seat<
    Option<Held<O, <O as Object>::Call, <O as Object>::Reply>>,
    View<O, <O as Object>::Call, <O as Object>::Reply>,
>;
