//! What an agent needs before it serves.
ghost use Rattle.std.specs.Prelude.{◌≡◌, ◌≤◌, ◌<◌, IfOk};
ghost use Rattle.hall.specs.Passes.{shards_of};
ghost use Rattle.agent_serve.specs.Crew.{IsMember};
ghost use Rattle.agent_serve.specs.Opening.{IsManned, IsOpened, IsShared, LeavesOthers};

use crate::member::{Member, Place};
use conn_worker::{Handle, WorkEnd};
use hall::{HallPass, SharedHall};
use shelf::Apps;
use shelf_lock::{SharedShelf, ShelfPass};
use std::alloc::Global;
use tx_core::Half;
use waf_plain::NoMemory;

/// The table of transactions and the list of applications, a pass of each for orders, and the crew.
#[derive(Drop)]
pub struct Agent {
    pub desk: SharedHall<Half>,
    pub desk_pass: HallPass<Half>,
    pub rules: SharedShelf<Handle>,
    pub rules_pass: ShelfPass<Handle>,
    pub crew: Vec<Member>,
}

/// Opens a table of so many shards, each for so many rows, and a list of these applications, and splits their passes
/// for so many workers.
pub fn open(
    alloc: Global,
    shards: u32,
    capacity: u32,
    workers: u32,
    apps: Apps<Handle>,
) -> Result<Agent, NoMemory>
    requires shards { (1 ≤ shards) × (shards ≤ 64) }
    requires workers { workers ≤ 64 }
    ensures { IfOk result (λ agent. IsOpened shards capacity workers apps agent) }
{
    let (rules, mut rules_pass) = SharedShelf::new(alloc, apps)?;
    let (desk, mut desk_pass) = SharedHall::new(alloc, shards, capacity)?;
    let crew = crew_of(
        alloc,
        workers,
        &desk,
        &mut desk_pass,
        &rules,
        &mut rules_pass,
    )?;
    Ok(Agent {
        desk,
        desk_pass,
        rules,
        rules_pass,
        crew,
    })
}

// Splits a member from both passes for each worker.
fn crew_of(
    alloc: Global,
    workers: u32,
    desk: &SharedHall<Half>,
    desk_pass: &mut HallPass<Half>,
    rules: &SharedShelf<Handle>,
    rules_pass: &mut ShelfPass<Handle>,
) -> Result<Vec<Member>, NoMemory>
    requires few { workers ≤ 64 }
    requires whole { IsShared 65 desk.now desk_pass.old rules.now rules_pass.old }
    ensures { IfOk result (λ crew. IsManned workers desk.now desk_pass.new rules.now rules_pass.new crew.items) }
{
    let mut crew = Vec::with_capacity(alloc, workers as usize)?;
    for _ in 0..workers {
        crew.push_reserved(hire(alloc, desk, desk_pass, rules, rules_pass)?);
    }
    Ok(crew)
}

// Splits a member from both passes.
fn hire(
    alloc: Global,
    desk: &SharedHall<Half>,
    desk_pass: &mut HallPass<Half>,
    rules: &SharedShelf<Handle>,
    rules_pass: &mut ShelfPass<Handle>,
) -> Result<Member, NoMemory>
    requires { IsShared 2 desk.now desk_pass.old rules.now rules_pass.old }
    ensures member { IfOk result (λ member. IsMember desk.now rules.now member) }
    ensures left { IfOk result (λ member.
        LeavesOthers desk.now desk_pass.old desk_pass.new rules.now rules_pass.old rules_pass.new) }
{
    Ok(Place {
        desk_pass: desk.split(alloc, desk_pass)?,
        rules_pass: rules.split(rules_pass),
        end: WorkEnd::Closed,
    })
}
