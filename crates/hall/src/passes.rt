//! Passes are split, to be handed to other threads, and joined again.
ghost use Rattle.std.specs.Prelude.{◌≡◌, IfOk, IfErr};
ghost use Rattle.hall.specs.Parts.{AtEach, HoldsAll, HoldsOf, IsJoined, IsSplit, MaySplit};
ghost use Rattle.hall.specs.Passes.{IsPassOfHall};

use crate::shared::{HallPass, Seats, SharedHall};
use std::alloc::Global;
use waf_plain::NoMemory;

impl<P> SharedHall<P> {
    /// A second pass, which has seen what this one has and has made no call. It takes one of this
    /// one's shares at each shard. Without memory the pass is as before.
    pub fn split(&self, alloc: Global, pass: &mut HallPass<P>) -> Result<HallPass<P>, NoMemory>
        requires hall { IsPassOfHall self.now pass.old }
        requires share { MaySplit pass.old }
        ensures old { IsPassOfHall self.now pass.new }
        ensures new { IfOk result (λ q. IsPassOfHall self.now q) }
        ensures split { IfOk result (λ q. AtEach IsSplit self.now pass.old pass.new q) }
        ensures tickets { HoldsAll pass.old pass.new }
        ensures kept { IfErr result (λ e. pass.new ≡ pass.old) }
    {
        let mut seats = Vec::with_capacity(alloc, self.locks.len())?;
        for shard in 0..self.locks.len() {
            let lock = &self.locks[shard];
            seats.push_reserved(lock.split(&mut pass.seats[shard]));
        }
        Ok(Seats { seats })
    }

    /// Takes over what another pass saw and made, and its shares.
    pub fn join(&self, pass: &mut HallPass<P>, other: HallPass<P>)
        requires hall { IsPassOfHall self.now pass.old × IsPassOfHall self.now other }
        ensures hall { IsPassOfHall self.now pass.new }
        ensures joined { AtEach IsJoined self.now pass.old other pass.new }
        ensures tickets { HoldsOf pass.old other pass.new }
    {
        let Seats { mut seats } = other;
        while let Some(seat) = seats.pop() {
            let shard = seats.len();
            let lock = &self.locks[shard];
            lock.join(&mut pass.seats[shard], seat);
        }
    }
}
