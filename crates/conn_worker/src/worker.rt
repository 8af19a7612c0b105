//! A worker at one connection.
use crate::rules::Handle;
use hall::{HallPass, SharedHall};
use shelf_lock::{SharedShelf, ShelfPass};
use std::alloc::Global;
use tx_core::Half;

/// What it shares with others, its passes, and the moment that it read last.
#[derive(Drop)]
pub struct Worker<'a, W, C, G> {
    pub rt: &'a W,
    pub alloc: Global,
    pub desk: &'a SharedHall<Half>,
    pub desk_pass: &'a mut HallPass<Half>,
    pub rules: &'a SharedShelf<Handle>,
    pub rules_pass: &'a mut ShelfPass<Handle>,
    pub clock: &'a C,
    pub gate: &'a G,
    pub worker: u32,
    pub moment: u64,
}
