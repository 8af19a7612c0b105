ghost use Rattle.std.specs.Prelude.{◌≡◌, [], ◌++◌, IfOk, OnOk};
ghost use Rattle.replay_text.specs.Playable.{IsPlayable};
ghost use Rattle.workload.specs.Workload.{opening, openings, script};
ghost use Rattle.workload.specs.Messages.{hello_bytes};
ghost use Rattle.workload.specs.declared.commands.TheConstants.{SHARDS};

use crate::draws::Draws;
use crate::messages::hello;
use crate::turn::Turn;
use crate::turns::add_turn;
use replay_text::Command;
use std::alloc::Global;
use waf_plain::{Bytes, NoMemory, Seq};

/// How many connections a script opens.
pub const CONNECTIONS: u64 = 16;

/// Over how many shards it plays.
pub const SHARDS: u64 = 4;

/// The commands that a seed decides: all connections are opened, and so many turns follow. In a turn a request comes
/// in two pieces, the clock goes on, a response comes to this request or to one shortly before it, and a shard lets go
/// of what is due. A turn has about 600 bytes of frames, and a script takes the time of copying them.
#[tactic(auto, unfolding(crate::specs::Workload::script))]
pub fn script(alloc: Global, seed: u64, count: u32) -> Result<Seq<Command>, NoMemory>
    ensures commands { IfOk result (λ commands. commands ≡ script seed count) }
    ensures playable { IfOk result (IsPlayable SHARDS []) }
{
    let mut commands = Seq::new(alloc);
    add_openings(alloc, &mut commands)?;
    let mut draws = Draws::new(seed);
    for past in 0..u64::from(count) {
        let turn = Turn::drawn(past + 1, &mut draws);
        add_turn(alloc, &turn, &mut commands)?;
    }
    Ok(commands)
}

// The connections are opened, and on each HAProxy says hello and is answered.
#[tactic(auto, unfolding(crate::specs::Workload::openings))]
fn add_openings(alloc: Global, commands: &mut Seq<Command>) -> Result<(), NoMemory>
    ensures { OnOk result (commands.new ≡ commands.old ++ openings) }
{
    let hello = hello(alloc)?;
    for conn in 0..CONNECTIONS {
        add_opening(alloc, conn as u32, hello.as_slice(), commands)?;
    }
    Ok(())
}

fn add_opening(
    alloc: Global,
    conn: u32,
    hello: &[u8],
    commands: &mut Seq<Command>,
) -> Result<(), NoMemory>
    requires { hello.now ≡ hello_bytes }
    ensures { OnOk result (commands.new ≡ commands.old ++ opening conn) }
{
    commands.push(Command::Open(conn))?;
    commands.push(Command::Feed(conn, Bytes::copy(alloc, hello)?))?;
    commands.push(Command::Act(conn))
}
