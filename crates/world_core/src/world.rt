//! Several connections, with what they share.
use crate::judge::Judge;
use crate::judged::Judged;
use crate::peers::Connection;
use crate::tables::Tables;
use std::marker::Model;

/// Several connections over one list of applications in force and one table of transactions, with a
/// clock that goes on by steps.
#[derive(Drop)]
pub struct World<J: Judge> {
    pub(crate) size: u32,
    pub(crate) tables: Tables<J>,
    pub(crate) peers: Vec<Connection<Judged<J>>>,
}

impl<J: Judge> Model for World<J> {
    ghost use Rattle.world_core.specs.Standing.{SharedView};

    ghost Value = { SharedView };

    ghost view = { λ w. record {
      size = w.size;
      shelf = w.tables.shelf;
      halls = w.tables.shards;
      moment = w.tables.moment;
      peers = w.peers.items;
    } };
}
