//! The shared list and its passes.
use shelf::Shelf;
use turn_lock::{Pass, TurnLock};

/// A lock. It is generic in what it holds, so that it is seen to be `Send` and `Sync`.
#[derive(Drop)]
pub struct Guarded<L> {
    pub(crate) lock: L,
}

/// The list of applications that is in force. Share it by reference, and hand each thread a pass of
/// its own.
pub type SharedShelf<R> = Guarded<TurnLock<Shelf<R>>>;

/// The leave to make calls on one shared list.
pub type ShelfPass<R> = Pass<Shelf<R>>;
