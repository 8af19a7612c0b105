ghost use Rattle.std.specs.Prelude.{codes, flat_map, map};
ghost use Rattle.toml.specs.Data.{get_member};
ghost use Rattle.toml.specs.View.{items_view, table_view};
ghost use Rattle.agent_conf.specs.Configuration.{application_of};
ghost use Rattle.agent_conf.specs.Document.{tables};
ghost use Rattle.agent_conf.specs.Faults.{application_rows, bad_keys};
ghost use Rattle.agent_conf.specs.Reading.{Gives, Reads};
ghost use Rattle.agent_conf.specs.Values.{life_in, name_in};

use crate::fault::bad_value;
use crate::limits::{DEFAULT_LIFE, MAX_LIFE};
use crate::values::{flag, number, plain, texts};
use crate::{AppConf, ConfFault};
use std::alloc::Global;
use toml::{Table, Value};
use waf_plain::{Bytes, Seq};

// The applications that are tables, in their order.
pub(crate) fn applications(alloc: Global, members: &[Value]) -> Result<Seq<AppConf>, ConfFault>
    ensures { Gives result (flat_map (bad_keys application_rows) (tables (items_view members.now)))
        (map application_of (tables (items_view members.now))) }
{
    let mut apps = Seq::new(alloc);
    for member in members {
        if let Some(app) = member.as_table() {
            apps.push(application(alloc, app)?)?;
        }
    }
    Ok(apps)
}

fn application(alloc: Global, app: &Table) -> Result<AppConf, ConfFault>
    ensures { Gives result (bad_keys application_rows (table_view app.now)) (application_of (table_view app.now)) }
{
    let name = name(alloc, app)?;
    let rules = texts(alloc, app, "rules")?;
    let responses = flag(alloc, app, "responses", false)?;
    let life = life(alloc, app)?;
    Ok(AppConf {
        name,
        rules,
        responses,
        life,
    })
}

fn name(alloc: Global, app: &Table) -> Result<Bytes, ConfFault>
    ensures { Reads result (name_in (get_member (codes "name") (table_view app.now))) (codes "name") }
{
    match plain(alloc, app, "name")? {
        Some(name) => Ok(name),
        None => Err(bad_value(alloc, "name")),
    }
}

fn life(alloc: Global, app: &Table) -> Result<u64, ConfFault>
    ensures { Reads result (life_in (get_member (codes "life") (table_view app.now))) (codes "life") }
{
    let life = number(alloc, app, "life", 1, MAX_LIFE)?;
    Ok(u64::from(life.unwrap_or(DEFAULT_LIFE)))
}
