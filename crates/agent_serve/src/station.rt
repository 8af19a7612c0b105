//! What the members of a crew share.
use crate::member::Member;
use conn_worker::{Handle, work};
use crew::Shift;
use hall::SharedHall;
use shelf_lock::SharedShelf;
use std::alloc::Global;
use std::sync::Wait;
use tx_core::Half;
use waf_io::{Clock, Door, Gate};

// The table of transactions and the list of applications.
#[derive(Drop)]
pub struct Tables<'a> {
    pub desk: &'a SharedHall<Half>,
    pub rules: &'a SharedShelf<Handle>,
}

// What the members of a crew share.
#[derive(Drop)]
pub struct Station<'a, C, G> {
    pub alloc: Global,
    pub tables: Tables<'a>,
    pub size: u32,
    pub clock: &'a C,
    pub gate: &'a G,
}

impl<D: Door, C: Clock, G: Gate> Shift<D, Member> for Station<'_, C, G> {
    ghost use Rattle.std.specs.Prelude.{◌≡◌, false};
    ghost use Rattle.conn_worker.specs.Worked.{sight};
    ghost use Rattle.agent_serve.specs.Crew.{Did, IsMember, door_sight};

    ghost is_open = { λ s d. D.is_out d ≡ false };

    ghost is_ready = { λ s m. IsMember s.tables.desk.now s.tables.rules.now m };

    ghost did = { λ s number d e m n. Did s.tables.desk.now s.tables.rules.now (C.told s.clock.now) s.size
        (door_sight D.left D.served D.is_out D.faults D.closings
        (sight D.In.left D.In.ends D.In.faults D.Out.held D.Out.faults)) d e m n };

    fn serve<W: Wait>(&self, rt: &W, number: u32, door: &mut D, member: &mut Member) {
        member.end = work(
            rt,
            self.alloc,
            door,
            self.tables.desk,
            &mut member.desk_pass,
            self.tables.rules,
            &mut member.rules_pass,
            self.size,
            self.clock,
            self.gate,
            number,
        );
    }
}
