//! A connection's act at its need.
ghost use Rattle.std.specs.Prelude.{◌≡◌, IfOk, true};
ghost use Rattle.conn_core.specs.Calls.{At, kind_at};
ghost use Rattle.conn_core.specs.Stands.{Closes, Holds, Stands};
ghost use Rattle.conn_loop.specs.Met.{asks_host};
ghost use Rattle.world_core.specs.Serving.{Acted, desk_of, Keeps, Writes};
ghost use Rattle.world_core.specs.Standing.{IsWhole};
ghost use Rattle.world_core.specs.World.{Conn};

use crate::judge::Judge;
use crate::peers::Talk;
use crate::tables::Tables;
use conn_core::{Closing, Need, Seen};
use std::alloc::Global;
use std::mem;
use waf_plain::{Bytes, NoMemory};

/// Meets its next need; at Bytes and at Close it stays as it is.
pub fn act_on<J: Judge>(conn: &mut Talk<J>, tables: &mut Tables<J>) -> Result<Seen, NoMemory>
    requires whole { IsWhole conn.old }
    requires keeps { Keeps (desk_of tables.old) conn.old }
    ensures { IfOk result (λ seen. Acted (desk_of tables.old) (desk_of tables.new) conn.old conn.new seen) }
{
    match conn.need() {
        Need::Bytes => Ok(Seen::Nothing),
        Need::Close => Ok(Seen::Closed(closing(conn))),
        Need::Write => write(tables.alloc, conn),
        _ => ask(conn, tables),
    }
}

// How it closes.
fn closing<J: Judge>(conn: &Talk<J>) -> Closing
    requires { At Need.Close conn.now.broken conn.now.stage }
    ensures { (s : Conn) → Stands conn.now s → Closes conn.now s result }
{
    match conn.closing() {
        Some(how) => how,
        None => unreachable!(),
    }
}

// The bytes that are to be written are those that are shown.
fn write<J: Judge>(alloc: Global, conn: &mut Talk<J>) -> Result<Seen, NoMemory>
    requires whole { IsWhole conn.old }
    requires at { At Need.Write conn.old.broken conn.old.stage }
    ensures { IfOk result (λ seen. Writes conn.old conn.new seen) }
{
    let bytes = Bytes::copy(alloc, conn.out())?;
    conn.written();
    if conn.broken() {
        return Err(NoMemory);
    }
    Ok(Seen::Out(bytes))
}

// The tables answer.
fn ask<J: Judge>(conn: &mut Talk<J>, tables: &mut Tables<J>) -> Result<Seen, NoMemory>
    requires whole { IsWhole conn.old }
    requires keeps { Keeps (desk_of tables.old) conn.old }
    requires asks { asks_host (kind_at conn.old.stage) ≡ true }
    requires held { Holds conn.old.stage conn.old.hold }
    ensures { IfOk result (λ seen. Acted (desk_of tables.old) (desk_of tables.new) conn.old conn.new seen) }
{
    tables.seen = Seen::Nothing;
    conn_loop::act(conn, tables);
    if conn.broken() || tables.starved {
        return Err(NoMemory);
    }
    Ok(mem::replace(&mut tables.seen, Seen::Nothing))
}
