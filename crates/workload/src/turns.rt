ghost use Rattle.std.specs.Prelude.{◌≡◌, ◌<◌, ◌++◌, IfOk, OnOk};
ghost use Rattle.workload.specs.Turns.{
  acts,
  request_commands,
  request_conn,
  response_commands,
  response_conn,
  turn_commands,
};
ghost use Rattle.workload.specs.declared.commands.TheConstants.{CONNECTIONS};

use crate::commands::{CONNECTIONS, SHARDS};
use crate::messages::{request, response};
use crate::turn::Turn;
use replay_text::Command;
use std::alloc::Global;
use waf_plain::{Bytes, NoMemory, Seq};

// How often a connection acts on a request, and on a response.
const REQUEST_ACTS: u32 = 5;

const RESPONSE_ACTS: u32 = 3;

// The clock goes on by less than this between a request and a response.
const MOST_PAUSE: u64 = 100;

// A request, a pause, a response, and an expiry of one shard.
#[tactic(auto, unfolding(crate::specs::Turns::turn_commands))]
pub(crate) fn add_turn(
    alloc: Global,
    turn: &Turn,
    commands: &mut Seq<Command>,
) -> Result<(), NoMemory>
    ensures { OnOk result (commands.new ≡ commands.old ++ turn_commands turn.now) }
{
    add_request(alloc, turn, commands)?;
    commands.push(Command::Tick(turn.moment % MOST_PAUSE))?;
    add_response(alloc, turn, commands)?;
    commands.push(Command::Expire((turn.number % SHARDS) as u32))
}

// The request comes in two pieces.
#[tactic(auto, unfolding(crate::specs::Turns::request_commands))]
fn add_request(alloc: Global, turn: &Turn, commands: &mut Seq<Command>) -> Result<(), NoMemory>
    ensures { OnOk result (commands.new ≡ commands.old ++ request_commands turn.now) }
{
    let conn = request_conn(turn);
    let bytes = request(alloc, turn)?;
    let cut = turn.moment % bytes.len() as u64;
    let (first, second) = bytes.as_slice().split_at(cut as usize);
    commands.push(Command::Feed(conn, Bytes::copy(alloc, first)?))?;
    commands.push(Command::Feed(conn, Bytes::copy(alloc, second)?))?;
    add_acts(REQUEST_ACTS, conn, commands)
}

#[tactic(auto, unfolding(crate::specs::Turns::response_commands))]
fn add_response(alloc: Global, turn: &Turn, commands: &mut Seq<Command>) -> Result<(), NoMemory>
    ensures { OnOk result (commands.new ≡ commands.old ++ response_commands turn.now) }
{
    let conn = response_conn(turn);
    commands.push(Command::Feed(conn, response(alloc, turn)?))?;
    add_acts(RESPONSE_ACTS, conn, commands)
}

fn add_acts(count: u32, conn: u32, commands: &mut Seq<Command>) -> Result<(), NoMemory>
    ensures { OnOk result (commands.new ≡ commands.old ++ acts count conn) }
{
    for _ in 0..count {
        commands.push(Command::Act(conn))?;
    }
    Ok(())
}

fn request_conn(turn: &Turn) -> u32
    ensures { result ≡ request_conn turn.now }
{
    (turn.conn % CONNECTIONS) as u32
}

fn response_conn(turn: &Turn) -> u32
    ensures { result ≡ response_conn turn.now }
{
    ((turn.conn % CONNECTIONS + 1) % CONNECTIONS) as u32
}
