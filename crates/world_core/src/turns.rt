//! The steps.
ghost use Rattle.std.specs.Prelude.{◌≡◌};
ghost use Rattle.std.specs.Arc.{arc_value};
ghost use Rattle.world_core.specs.Standing.{May, Stepped};
ghost use Rattle.world_core.specs.declared.step.Step.{Step};

use crate::act::act_on;
use crate::judge::Judge;
use crate::judged;
use crate::peers::{Connection, hear, hear_end, place_of};
use crate::rules::Handle;
use crate::step::Step;
use crate::world::World;
use conn_core::{Conn, Seen};
use hall_core::Expiry;
use shelf::{Apps, Published};
use waf_plain::{Bytes, NoMemory};

impl<J: Judge> World<J> {
    /// Does a step, and answers what it shows. After an `Err` it can only be dropped.
    pub fn step(&mut self, step: Step<Handle>) -> Result<Seen, NoMemory>
        requires { May self.old step }
        ensures { Stepped arc_value self.old step result self.new }
    {
        match step {
            Step::Open(number) => self.open(number),
            Step::Feed(number, bytes) => self.feed(number, bytes),
            Step::End(number) => self.end(number),
            Step::Act(number) => self.act(number),
            Step::Tick(units) => self.tick(units),
            Step::Expire(shard) => self.expire(shard),
            Step::Reload(apps) => self.reload(apps),
            Step::Stats => self.stats(),
        }
    }

    fn open(&mut self, number: u32) -> Result<Seen, NoMemory>
        ensures { Stepped arc_value self.old (Step.Open number) result self.new }
    {
        let conn = Conn::new(self.tables.alloc, self.size)?;
        self.peers.push(Connection { number, conn })?;
        Ok(Seen::Nothing)
    }

    fn feed(&mut self, number: u32, bytes: Bytes) -> Result<Seen, NoMemory>
        requires { May self.old (Step.Feed number bytes) }
        ensures { Stepped arc_value self.old (Step.Feed number bytes) result self.new }
    {
        match place_of(&self.peers, number) {
            Some(place) => hear(&mut self.peers[place].conn, bytes.as_slice()),
            None => unreachable!(),
        }
    }

    fn end(&mut self, number: u32) -> Result<Seen, NoMemory>
        requires { May self.old (Step.End number) }
        ensures { Stepped arc_value self.old (Step.End number) result self.new }
    {
        match place_of(&self.peers, number) {
            Some(place) => hear_end(&mut self.peers[place].conn),
            None => unreachable!(),
        }
    }

    fn act(&mut self, number: u32) -> Result<Seen, NoMemory>
        requires { May self.old (Step.Act number) }
        ensures { Stepped arc_value self.old (Step.Act number) result self.new }
    {
        match place_of(&self.peers, number) {
            Some(place) => act_on(&mut self.peers[place].conn, &mut self.tables),
            None => unreachable!(),
        }
    }

    fn tick(&mut self, units: u64) -> Result<Seen, NoMemory>
        ensures { Stepped arc_value self.old (Step.Tick units) result self.new }
    {
        self.tables.moment = self.tables.moment.saturating_add(units);
        Ok(Seen::Nothing)
    }

    fn expire(&mut self, shard: u32) -> Result<Seen, NoMemory>
        requires { May self.old (Step.Expire shard) }
        ensures { Stepped arc_value self.old (Step.Expire shard) result self.new }
    {
        match self.tables.shards.expire(shard, self.tables.moment) {
            Expiry::NothingDue => Ok(Seen::NothingDue),
            Expiry::Expired { ticket, value, .. } => Ok(Seen::Expired {
                ticket,
                lines: judged::retire(&self.tables.judge, self.tables.alloc, value)?,
            }),
        }
    }

    fn reload(&mut self, apps: Apps<Handle>) -> Result<Seen, NoMemory>
        ensures { Stepped arc_value self.old (Step.Reload apps) result self.new }
    {
        match self.tables.shelf.publish(apps) {
            Published::Generation(generation) => Ok(Seen::Published(generation)),
            Published::Worn => Ok(Seen::Worn),
        }
    }

    fn stats(&self) -> Result<Seen, NoMemory>
        ensures { Stepped arc_value self.now Step.Stats result self.now }
    {
        Ok(Seen::Counts(self.tables.shards.counts()))
    }
}
