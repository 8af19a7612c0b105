//! The rule that the words, the slot and all views of a lock keep.
use crate::object::Object;
use crate::slot::Held;
use crate::view::View;
use atomic_table::TableRule;
use std::marker::PhantomData;
use std::snapshot::Snapshot;

/// Calls take turns, in one legal history. The key is what the lock was opened with.
pub struct Turns<O> {
    object: PhantomData<O>,
}

impl<O: Object> TableRule<
    Option<Held<O, O::Call, O::Reply>>,
    View<O, O::Call, O::Reply>,
    Snapshot<O>,
> for Turns<O> {
    ghost use Rattle.turn_lock.specs.Rule.{InTurns};
    ghost use Rattle.turn_lock.specs.View.{first_view};

    ghost holds = { λ k. InTurns O.may O.allows O.after O.kept k.value };

    ghost first = { λ k. first_view k.value };
}
