//! Opening a lock.
ghost use Rattle.std.specs.Prelude.{◌≡◌, [], IfOk};
ghost use Rattle.turn_lock.specs.Lock.{IsPassOf, marks_of, opened_with, seen_of, share_of};
ghost use Rattle.turn_lock.specs.View.{all_shares};

use crate::lock::{Locked, Pass, TurnLock};
use crate::object::Object;
use crate::slot::Held;
use atomic_table::Table;
use std::alloc::Global;
use std::snapshot::Snapshot;
use waf_plain::NoMemory;

impl<O: Object> TurnLock<O> {
    /// A lock round an object in a start state, and its first pass, which has all shares. Where
    /// there is no memory the object is dropped.
    pub fn new(alloc: Global, object: O) -> Result<(TurnLock<O>, Pass<O>), NoMemory>
    where
        O: Drop,
        requires { O.starts object }
        ensures lock { IfOk result (λ t. IsPassOf t.0 t.1 × (opened_with t.0 ≡ object)) }
        ensures pass { IfOk result (λ t. (seen_of t.1 ≡ []) × (marks_of t.1 ≡ []) × (share_of t.1 ≡ all_shares)) }
    {
        let start = Snapshot::of(&object);
        let mut slots = Vec::with_capacity(alloc, 1)?;
        slots.push_reserved(Some(Held { object, last: None }));
        match Table::new(alloc, &[0, 0, 0, 0, 0], slots, &start) {
            Ok((table, pass)) => Ok((Locked { table }, pass)),
            Err(_) => Err(NoMemory),
        }
    }
}
