ghost use Rattle.std.specs.Prelude.{◌≡◌, ◌*◌, ◌≤◌, Some, codes, nat_le, IfOk};
ghost use Rattle.toml.specs.Data.{get_member};
ghost use Rattle.toml.specs.View.{items_view, table_view, view};
ghost use Rattle.agent_conf.specs.Configuration.{conf_of};
ghost use Rattle.agent_conf.specs.Faults.{bad_values};
ghost use Rattle.agent_conf.specs.Reading.{Gives, Reads, unless};
ghost use Rattle.agent_conf.specs.declared.limits.TheConstants.{ROW_LIMIT};
ghost use Rattle.agent_conf.specs.Values.{app_is_good, are_tables, count, listen_in, shards_in, size_in, workers_in};

use crate::application::applications;
use crate::fault::bad_value;
use crate::limits::{
    APP_LIMIT, DEFAULT_SHARDS, DEFAULT_SIZE, DEFAULT_WORKERS, LISTEN_LIMIT, MAX_SIZE, MIN_SIZE,
    ROW_LIMIT, SHARD_LIMIT, WORKER_LIMIT,
};
use crate::table::{members, value_at};
use crate::values::{number, plain, text};
use crate::{Conf, ConfFault};
use std::alloc::Global;
use toml::{Table, Value};
use waf_plain::Bytes;

// The configuration of a document, or its first bad value.
pub(crate) fn values(alloc: Global, top: &Table) -> Result<Conf, ConfFault>
    ensures { Gives result (bad_values (table_view top.now)) (conf_of (table_view top.now)) }
{
    let size = size(alloc, top)?;
    let capacity = number(alloc, top, "capacity", 1, ROW_LIMIT)?;
    let shards = shards(alloc, top)?;
    let workers = workers(alloc, top)?;
    let listen = listen(alloc, top)?;
    let fallback = plain(alloc, top, "default")?;
    check_app(alloc, top)?;
    let capacity = capacity.unwrap_or(ROW_LIMIT / shards);
    check_rows(alloc, capacity, shards)?;
    let apps = applications(alloc, members(top))?;
    Ok(Conf {
        size,
        capacity,
        shards,
        workers,
        listen,
        fallback,
        apps,
    })
}

fn size(alloc: Global, top: &Table) -> Result<u32, ConfFault>
    ensures { Reads result (size_in (get_member (codes "size") (table_view top.now))) (codes "size") }
{
    let size = number(alloc, top, "size", MIN_SIZE, MAX_SIZE)?;
    Ok(size.unwrap_or(DEFAULT_SIZE))
}

fn shards(alloc: Global, top: &Table) -> Result<u32, ConfFault>
    ensures value { Reads result (shards_in (get_member (codes "shards") (table_view top.now))) (codes "shards") }
    ensures least { IfOk result (λ n. 1 ≤ n) }
{
    let shards = number(alloc, top, "shards", 1, SHARD_LIMIT)?;
    Ok(shards.unwrap_or(DEFAULT_SHARDS))
}

fn workers(alloc: Global, top: &Table) -> Result<u32, ConfFault>
    ensures { Reads result (workers_in (get_member (codes "workers") (table_view top.now))) (codes "workers") }
{
    let workers = number(alloc, top, "workers", 1, WORKER_LIMIT)?;
    Ok(workers.unwrap_or(DEFAULT_WORKERS))
}

fn listen(alloc: Global, top: &Table) -> Result<Bytes, ConfFault>
    ensures { Reads result (listen_in (get_member (codes "listen") (table_view top.now))) (codes "listen") }
{
    match text(alloc, top, "listen", 1, LISTEN_LIMIT)? {
        Some(listen) => Ok(listen),
        None => Ok(Bytes::copy(alloc, b"127.0.0.1:9000")?),
    }
}

fn check_app(alloc: Global, top: &Table) -> Result<(), ConfFault>
    ensures { Gives result (unless (app_is_good (get_member (codes "app") (table_view top.now))) (codes "app")) tt }
{
    match value_at(top, "app") {
        Some(app) if !is_good(app) => Err(bad_value(alloc, "app")),
        _ => Ok(()),
    }
}

// A list of tables, and not too many.
fn is_good(app: &Value) -> bool
    ensures { result ≡ app_is_good (Some (view app.now)) }
{
    match app.as_array() {
        None => false,
        Some(items) => are_tables(items.as_slice()) && count(items.as_slice()) <= APP_LIMIT,
    }
}

fn count(items: &[Value]) -> usize
    ensures { result ≡ count (items_view items.now) }
{
    items.len()
}

fn are_tables(items: &[Value]) -> bool
    ensures { result ≡ are_tables (items_view items.now) }
{
    for item in items {
        if !item.is_table() {
            return false;
        }
    }
    true
}

fn check_rows(alloc: Global, capacity: u32, shards: u32) -> Result<(), ConfFault>
    ensures { Gives result (unless (nat_le (capacity * shards) ROW_LIMIT) (codes "capacity")) tt }
{
    if u64::from(capacity) * u64::from(shards) <= u64::from(ROW_LIMIT) {
        Ok(())
    } else {
        Err(bad_value(alloc, "capacity"))
    }
}
