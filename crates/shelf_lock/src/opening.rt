//! Opening a shared list.
ghost use Rattle.std.specs.Prelude.{◌≡◌, IfOk};
ghost use Rattle.shelf_lock.specs.Passes.{IsFirst, IsPassOfShelf};

use crate::shared::{Guarded, SharedShelf, ShelfPass};
use shelf::{Apps, Shelf};
use std::alloc::Global;
use turn_lock::TurnLock;
use waf_plain::NoMemory;

impl<R: Clone + Drop> SharedShelf<R> {
    /// With these applications in force, as generation 1, and the first pass, which has all shares.
    /// Without memory the list is dropped.
    pub fn new(alloc: Global, apps: Apps<R>) -> Result<(SharedShelf<R>, ShelfPass<R>), NoMemory>
        ensures { IfOk result (λ t. IsPassOfShelf R.is_clone t.0 t.1 × IsFirst apps t.0 t.1) }
    {
        let (lock, pass) = TurnLock::new(alloc, Shelf::new(apps))?;
        Ok((Guarded { lock }, pass))
    }
}
