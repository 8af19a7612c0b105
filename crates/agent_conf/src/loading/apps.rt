//! The applications of a configuration with their rules.
ghost use Rattle.std.specs.Prelude.{◌≡◌, ◌≤◌, IfErr, IfOk, IfSome, length, map, true};
ghost use Rattle.std.specs.Arc.{arc_value};
ghost use Rattle.sec_read.specs.Names.{beside};
ghost use Rattle.agent_conf.specs.LoadFaults.{Causes, MemoryIsApart, Tells, is_read_fault};
ghost use Rattle.agent_conf.specs.Loading.{app_in, apps_in, rule_files, settings_of};
ghost use Rattle.agent_conf.specs.Seen.{app_seen};
ghost use Rattle.agent_conf.specs.Unread.{AppsOpen, WhereUnread};
ghost use Rattle.sec_read.specs.Places.{IsPlaceOf};

use super::rules::load_rules;
use crate::{AppConf, LoadFault};
use sec_compile::Ruleset;
use sec_read::name_beside;
use shelf::{App, Settings};
use std::alloc::Global;
use std::sync::Arc;
use waf_io::Files;
use waf_plain::{Bytes, NoMemory, Seq};

// The applications with their rules, in their order.
pub(crate) fn load_apps<F: Files>(
    alloc: Global,
    conf: &[u8],
    apps: &[AppConf],
    files: &mut F,
) -> Result<Seq<App<Arc<Ruleset, Global>>>, LoadFault>
    ensures told { IfSome (F.content files.old) (λ told.
        Tells (map (app_seen arc_value)) result (apps_in told conf.now apps.now)) }
    ensures same { F.content files.new ≡ F.content files.old }
    ensures later { F.faults files.old ≤ F.faults files.new }
    ensures cause { Causes result (F.faults files.old) (F.faults files.new) }
    ensures memory { IfErr result MemoryIsApart }
    ensures place { IfSome (F.content files.old) (λ told. WhereUnread result (AppsOpen told conf.now apps.now)) }
    ensures length { IfOk result (λ list. length list ≡ length apps.now) }
{
    let mut list = Seq::new(alloc);
    for app in apps {
        list.push(load_app(alloc, conf, app, files)?)?;
    }
    Ok(list)
}

fn load_app<F: Files>(
    alloc: Global,
    conf: &[u8],
    app: &AppConf,
    files: &mut F,
) -> Result<App<Arc<Ruleset, Global>>, LoadFault>
    ensures told { IfSome (F.content files.old) (λ told.
        Tells (app_seen arc_value) result (app_in told conf.now app.now)) }
    ensures same { F.content files.new ≡ F.content files.old }
    ensures later { F.faults files.old ≤ F.faults files.new }
    ensures cause { Causes result (F.faults files.old) (F.faults files.new) }
    ensures memory { IfErr result MemoryIsApart }
    ensures place { IfSome (F.content files.old) (λ told.
        WhereUnread result (IsPlaceOf told (rule_files conf.now app.now))) }
{
    let names = rule_files(alloc, conf, app)?;
    let rules = load_rules(alloc, &names, files)?;
    Ok(app_with(alloc, app, rules)?)
}

// An application as it is configured, with these rules.
fn app_with(
    alloc: Global,
    app: &AppConf,
    rules: Ruleset,
) -> Result<App<Arc<Ruleset, Global>>, NoMemory>
    ensures { IfOk result (λ found. app_seen arc_value found
        ≡ record { name = app.now.name; rules = rules; settings = settings_of app.now }) }
{
    let name = Bytes::copy(alloc, app.name.as_slice())?;
    let settings = Settings {
        responses: app.responses,
        life: app.life,
    };
    match Arc::new(alloc, rules) {
        Ok(rules) => Ok(App {
            name,
            rules,
            settings,
        }),
        Err(_) => Err(NoMemory),
    }
}

// The rule files of an application.
#[tactic(auto, unfolding(crate::specs::Loading::rule_files))]
fn rule_files(alloc: Global, conf: &[u8], app: &AppConf) -> Result<Seq<Bytes>, NoMemory>
    ensures { IfOk result (λ names. names ≡ rule_files conf.now app.now) }
{
    names_beside(alloc, conf, app.rules.as_slice())
}

fn names_beside(alloc: Global, conf: &[u8], words: &[Bytes]) -> Result<Seq<Bytes>, NoMemory>
    ensures { IfOk result (λ names. names ≡ map (beside conf.now) words.now) }
{
    let mut names = Seq::new(alloc);
    for word in words {
        names.push(name_beside(alloc, conf, word.as_slice())?)?;
    }
    Ok(names)
}
