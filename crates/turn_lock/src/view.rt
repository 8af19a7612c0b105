//! What a pass knows, for contracts alone: no value of these types is made.
use crate::history::Entry;
use std::collections::LinkedList;

/// Where a pass stands between two steps.
pub enum Stage {
    /// It has no turn.
    Idle,
    /// It has drawn this turn, which has not come.
    Waiting(u64),
    /// Its turn has come, and it holds the slot.
    Serving,
}

/// What a pass knows.
pub struct View<O, C, R> {
    /// What the lock was opened with; none once this pass was joined into another.
    pub start: Option<O>,
    /// The front of the history that it has seen.
    pub seen: LinkedList<Entry<C, R>>,
    /// Whether each place of `seen` is a call of this pass.
    pub own: LinkedList<bool>,
    /// Its part of the 2^32 - 1 shares of the lock; 0 once it was joined into another.
    pub share: u64,
    pub stage: Stage,
    // What the two passes of its last join had seen, and which calls were theirs.
    pub left_seen: LinkedList<Entry<C, R>>,
    pub right_seen: LinkedList<Entry<C, R>>,
    pub left_own: LinkedList<bool>,
    pub right_own: LinkedList<bool>,
}
