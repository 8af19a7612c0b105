//! What the connections share: the applications in force, the shards of the table, and the clock.
use crate::judge::Judge;
use crate::rules::Handle;
use crate::shards::Shards;
use conn_core::Seen;
use shelf::Shelf;
use std::alloc::Global;

#[derive(Drop)]
pub struct Tables<J: Judge> {
    pub judge: J,
    pub alloc: Global,
    pub shelf: Shelf<Handle>,
    pub shards: Shards<J>,
    pub moment: u64,
    /// What the last need shows.
    pub seen: Seen,
    /// There was no memory for it.
    pub starved: bool,
}
