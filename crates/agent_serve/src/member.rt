//! A member of the crew.
use conn_worker::{Handle, WorkEnd};
use hall::HallPass;
use shelf_lock::ShelfPass;
use tx_core::Half;

/// A place in the crew. It is generic in the passes, so that it is seen to be `Send`.
#[derive(Drop)]
pub struct Place<H, S> {
    pub desk_pass: H,
    pub rules_pass: S,
    /// How it ended at its last door.
    pub end: WorkEnd,
}

/// What a worker calls the table and the list of applications by.
pub type Member = Place<HallPass<Half>, ShelfPass<Handle>>;
