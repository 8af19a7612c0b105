//! How it begins, and what a connection needs.
ghost use Rattle.std.specs.Prelude.{◌<◌, IfOk};
ghost use Rattle.world_core.specs.Standing.{IsOpen, NeedsA, Opens};

use crate::judge::Judge;
use crate::peers::place_of;
use crate::rules::Handle;
use crate::shards::Shards;
use crate::tables::Tables;
use crate::world::World;
use conn_core::{Need, Seen};
use shelf::{Apps, Shelf};
use std::alloc::Global;
use waf_plain::NoMemory;

impl<J: Judge> World<J> {
    /// Without connections, at moment 0, with these applications in force as generation 1, and so many
    /// shards of so many rows each. Connections offer frames of that size.
    pub fn new(
        alloc: Global,
        judge: J,
        size: u32,
        shards: u32,
        capacity: u32,
        apps: Apps<Handle>,
    ) -> Result<World<J>, NoMemory>
        requires { 0 < shards }
        ensures { IfOk result (λ world. Opens size shards capacity apps world) }
    {
        let shards = Shards::new(alloc, shards, capacity)?;
        Ok(World {
            size,
            tables: Tables {
                judge,
                alloc,
                shelf: Shelf::new(apps),
                shards,
                moment: 0,
                seen: Seen::Nothing,
                starved: false,
            },
            peers: Vec::new(alloc),
        })
    }

    /// What a connection needs next, by its number.
    pub fn needs(&self, number: u32) -> Need
        requires { IsOpen self.now number }
        ensures { NeedsA self.now number result }
    {
        match place_of(&self.peers, number) {
            Some(place) => self.peers[place].conn.need(),
            None => unreachable!(),
        }
    }
}
