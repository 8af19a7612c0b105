ghost use Rattle.std.specs.Prelude.{◌≡◌, ◌++◌, map, flat_map, option_map};
ghost use Rattle.toml.specs.View.{items_view, table_view, view};
ghost use Rattle.agent_conf.specs.Document.{tables, tables_of};
ghost use Rattle.agent_conf.specs.Faults.{missing, unknown};
ghost use Rattle.agent_conf.specs.Keys.{application_keys, is_among, missing_keys, top_keys, unknown_keys};
ghost use Rattle.agent_conf.specs.declared.fault.ConfFault.TheVariants as faults;
ghost use Rattle.agent_conf.specs.Reading.{IsFirst, first};

use crate::ConfFault;
use crate::table::{members, value_at};
use std::alloc::Global;
use toml::{Table, Value};
use waf_plain::Bytes;

// No key is unknown, and none is missing.
pub(crate) fn check_keys(alloc: Global, top: &Table) -> Result<(), ConfFault>
    ensures { IsFirst result
        (map (λ key. faults.UnknownKey key) (unknown (table_view top.now))
        ++ map (λ key. faults.MissingKey key) (missing (table_view top.now))) }
{
    if let Some(key) = unknown_key(top) {
        let key = Bytes::copy(alloc, key.as_bytes())?;
        return Err(ConfFault::UnknownKey(key));
    }
    if let Some(key) = missing_key(top) {
        let key = Bytes::copy(alloc, key.as_bytes())?;
        return Err(ConfFault::MissingKey(key));
    }
    Ok(())
}

// The first key that is unknown, the top's before those of the applications.
fn unknown_key(top: &Table) -> Option<&str>
    ensures { option_map (λ k. k.now) result ≡ first (unknown (table_view top.now)) }
{
    match unknown_at_top(top) {
        Some(key) => Some(key),
        None => unknown_in_applications(members(top)),
    }
}

fn unknown_at_top(top: &Table) -> Option<&str>
    ensures { option_map (λ k. k.now) result ≡ first (unknown_keys top_keys (table_view top.now)) }
{
    for (key, _) in top.iter() {
        if !is_top_key(key.as_str()) {
            return Some(key.as_str());
        }
    }
    None
}

fn is_top_key(key: &str) -> bool
    ensures { result ≡ is_among top_keys key.now }
{
    matches!(
        key,
        "size" | "capacity" | "shards" | "workers" | "listen" | "default" | "app"
    )
}

fn unknown_in_applications(members: &[Value]) -> Option<&str>
    ensures { option_map (λ k. k.now) result
        ≡ first (flat_map (unknown_keys application_keys) (tables (items_view members.now))) }
{
    for member in members {
        if let Some(key) = unknown_in_member(member) {
            return Some(key);
        }
    }
    None
}

fn unknown_in_member(member: &Value) -> Option<&str>
    ensures { option_map (λ k. k.now) result
        ≡ first (flat_map (unknown_keys application_keys) (tables_of (view member.now))) }
{
    match member.as_table() {
        Some(app) => unknown_in_application(app),
        None => None,
    }
}

fn unknown_in_application(app: &Table) -> Option<&str>
    ensures { option_map (λ k. k.now) result ≡ first (unknown_keys application_keys (table_view app.now)) }
{
    for (key, _) in app.iter() {
        if !is_application_key(key.as_str()) {
            return Some(key.as_str());
        }
    }
    None
}

fn is_application_key(key: &str) -> bool
    ensures { result ≡ is_among application_keys key.now }
{
    matches!(key, "name" | "rules" | "responses" | "life")
}

// The first key that an application must have and lacks.
fn missing_key(top: &Table) -> Option<&'static str>
    ensures { option_map (λ k. k.now) result ≡ first (missing (table_view top.now)) }
{
    missing_in_applications(members(top))
}

fn missing_in_applications(members: &[Value]) -> Option<&'static str>
    ensures { option_map (λ k. k.now) result ≡ first (flat_map missing_keys (tables (items_view members.now))) }
{
    for member in members {
        if let Some(key) = missing_in_member(member) {
            return Some(key);
        }
    }
    None
}

fn missing_in_member(member: &Value) -> Option<&'static str>
    ensures { option_map (λ k. k.now) result ≡ first (flat_map missing_keys (tables_of (view member.now))) }
{
    match member.as_table() {
        Some(app) => missing_in_application(app),
        None => None,
    }
}

fn missing_in_application(app: &Table) -> Option<&'static str>
    ensures { option_map (λ k. k.now) result ≡ first (missing_keys (table_view app.now)) }
{
    if value_at(app, "name").is_none() {
        Some("name")
    } else if value_at(app, "rules").is_none() {
        Some("rules")
    } else {
        None
    }
}
