//! One connection among several.
ghost use Rattle.std.specs.Prelude.{◌≡◌, false, IfOk, OnOk, position};
ghost use Rattle.conn_core.specs.declared.seen.Seen.{Seen};
ghost use Rattle.world_core.specs.Standing.{Becomes, is_numbered, IsWhole};
ghost use Rattle.world_core.specs.World.{sent, shut};

use crate::judge::Judge;
use crate::judged::Judged;
use crate::rules::SharedRules;
use conn_core::{Conn, Need, Seen};
use hall_core::Ticket;
use waf_plain::NoMemory;

/// A connection that judges by `J`.
pub type Talk<J> = Conn<SharedRules, Judged<J>, Ticket>;

/// A connection with its number. `P` is a request that was judged.
#[derive(Drop)]
pub struct Connection<P> {
    pub number: u32,
    pub conn: Conn<SharedRules, P, Ticket>,
}

/// The place of the connection with this number.
pub fn place_of<J: Judge>(peers: &[Connection<Judged<J>>], number: u32) -> Option<usize>
    ensures { result ≡ position (is_numbered number) peers.now }
{
    peers.iter().position(|peer| peer.number == number)
}

/// A piece of its input comes.
pub fn hear<J: Judge>(conn: &mut Talk<J>, piece: &[u8]) -> Result<Seen, NoMemory>
    requires { IsWhole conn.old }
    ensures { IfOk result (λ seen. (seen ≡ Seen.Nothing) × Becomes conn.old conn.new (sent piece.now)) }
{
    if conn.need() == Need::Close {
        return Ok(Seen::Nothing);
    }
    conn.feed(piece);
    if conn.broken() {
        return Err(NoMemory);
    }
    Ok(Seen::Nothing)
}

/// Its input has ended.
pub fn hear_end<J: Judge>(conn: &mut Talk<J>) -> Result<Seen, NoMemory>
    requires { IsWhole conn.old }
    ensures { IfOk result (λ seen. (seen ≡ Seen.Nothing) × Becomes conn.old conn.new shut) }
{
    if conn.need() == Need::Close {
        return Ok(Seen::Nothing);
    }
    conn.end();
    if conn.broken() {
        return Err(NoMemory);
    }
    Ok(Seen::Nothing)
}
