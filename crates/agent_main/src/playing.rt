ghost use Rattle.std.specs.Prelude.{◌≡◌, ◌≢◌, ◌<◌, [], IfOk, List, Option, ℕ};
ghost use Rattle.replay_text.specs.declared.command.Command.TheVariants as script_commands;
ghost use Rattle.agent_conf.specs.declared.load_fault.LoadFault.TheVariants as faults;
ghost use Rattle.sec_read.specs.FileWords.{Named};
ghost use Rattle.replay_text.specs.Playable.{IsPlayable};
ghost use Rattle.agent_main.specs.Playing.{HasPlayed, IsPlan, MayPlay, failed_read_by};
ghost use Rattle.agent_main.specs.Turns.{Makes, Plays, RoseBy, conn_of, entry_of, failed_read_in, shard_of};

use crate::entry::{Entry, Shown};
use agent_conf::{LoadFault, load};
use replay_text::Command;
use shelf::Apps;
use std::alloc::Global;
use waf_io::Files;
use waf_plain::{NoMemory, Seq};
use world_core::{Handle, Judge, Step, World};

// What a command comes to: its step, or the fault for which a reload makes none.
#[derive(Drop)]
pub enum Plan {
    Step(Step<Handle>),
    Kept(LoadFault),
}

// The size of the frames that connections offer, and the shards of the table with the rows of each.
#[derive(Clone, Copy)]
pub struct Limits {
    pub size: u32,
    pub shards: u32,
    pub capacity: u32,
}

// What a run over these commands shows, within these limits, with these applications at first. A reload loads the
// configuration of that name.
pub fn played<J: Judge, F: Files>(
    alloc: Global,
    judge: J,
    name: &[u8],
    files: &mut F,
    limits: Limits,
    apps: Apps<Handle>,
    commands: &[Command],
) -> Result<Seq<Entry>, NoMemory>
    requires shards { 0 < limits.shards }
    requires playable { IsPlayable limits.shards [] commands.now }
    ensures { IfOk result
        (Plays (F.content files.old) name.now (F.faults files.old) (F.faults files.new) limits apps commands.now) }
{
    let Limits {
        size,
        shards,
        capacity,
    } = limits;
    let mut world = World::new(alloc, judge, size, shards, capacity, apps)?;
    let mut entries = Seq::new(alloc);
    for command in commands {
        let shown = play(alloc, name, files, command, &mut world)?;
        entries.push(entry_of(command, shown))?;
    }
    Ok(entries)
}

// Makes the turn of a command.
fn play<J: Judge, F: Files>(
    alloc: Global,
    name: &[u8],
    files: &mut F,
    command: &Command,
    world: &mut World<J>,
) -> Result<Shown, NoMemory>
    requires { MayPlay (F.content files.old) name.now world.old command.now }
    ensures turn { IfOk result
        (λ shown. HasPlayed (F.content files.old) name.now world.old command.now shown world.new) }
    ensures same { F.content files.new ≡ F.content files.old }
    ensures reads { IfOk result
        (λ shown. RoseBy (failed_read_in shown) (F.faults files.old) (F.faults files.new)) }
{
    match plan_of(alloc, name, files, command)? {
        Plan::Step(step) => Ok(Shown::Step(world.step(step)?)),
        Plan::Kept(fault) => Ok(Shown::Kept(fault)),
    }
}

// The step of a command, or the fault for which it makes none.
fn plan_of<F: Files>(
    alloc: Global,
    name: &[u8],
    files: &mut F,
    command: &Command,
) -> Result<Plan, NoMemory>
    ensures plan { IfOk result (IsPlan (F.content files.old) name.now command.now) }
    ensures same { F.content files.new ≡ F.content files.old }
    ensures reads { IfOk result
        (λ plan. RoseBy (failed_read_by plan) (F.faults files.old) (F.faults files.new)) }
{
    match command {
        Command::Reload => reload(alloc, name, files),
        _ => Ok(Plan::Step(step_of(command)?)),
    }
}

// The configuration and the rules are read anew.
fn reload<F: Files>(alloc: Global, name: &[u8], files: &mut F) -> Result<Plan, NoMemory>
    ensures plan { IfOk result (IsPlan (F.content files.old) name.now script_commands.Reload) }
    ensures same { F.content files.new ≡ F.content files.old }
    ensures reads { IfOk result
        (λ plan. RoseBy (failed_read_by plan) (F.faults files.old) (F.faults files.new)) }
{
    match load(alloc, name, files) {
        Ok((_, apps)) => Ok(Plan::Step(Step::Reload(apps))),
        Err(fault) => kept(fault),
    }
}

fn kept(fault: LoadFault) -> Result<Plan, NoMemory>
    ensures { IfOk result (λ plan. (plan ≡ Plan.Kept fault) × (fault ≢ faults.NoMemory)) }
{
    match fault {
        LoadFault::NoMemory => Err(NoMemory),
        fault => Ok(Plan::Kept(fault)),
    }
}

// The step of a command that loads nothing.
fn step_of(command: &Command) -> Result<Step<Handle>, NoMemory>
    requires { command.now ≢ script_commands.Reload }
    ensures { IfOk result (λ step. (content : Option Named) (name : List ℕ) → Makes content name command.now step) }
{
    Ok(match command {
        Command::Open(conn) => Step::Open(*conn),
        Command::Feed(conn, bytes) => Step::Feed(*conn, bytes.clone()?),
        Command::End(conn) => Step::End(*conn),
        Command::Act(conn) => Step::Act(*conn),
        Command::Tick(units) => Step::Tick(*units),
        Command::Expire(shard) => Step::Expire(*shard),
        Command::Stats => Step::Stats,
        Command::Reload => unreachable!(),
    })
}

fn entry_of(command: &Command, shown: Shown) -> Entry
    ensures { result ≡ entry_of command.now shown }
{
    Entry {
        conn: conn_of(command),
        shard: shard_of(command),
        shown,
    }
}

fn conn_of(command: &Command) -> Option<u32>
    ensures { result ≡ conn_of command.now }
{
    match command {
        Command::Open(conn) => Some(*conn),
        Command::Feed(conn, _) => Some(*conn),
        Command::End(conn) => Some(*conn),
        Command::Act(conn) => Some(*conn),
        _ => None,
    }
}

fn shard_of(command: &Command) -> u32
    ensures { result ≡ shard_of command.now }
{
    match command {
        Command::Expire(shard) => *shard,
        _ => 0,
    }
}
