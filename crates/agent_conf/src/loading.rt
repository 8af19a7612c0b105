ghost use Rattle.std.specs.Prelude.{◌≡◌, ◌≢◌, ◌≤◌, ◌<◌, Err, IfErr, IfOk, IfSome, length, position, bytes_eq, false, true};
ghost use Rattle.std.specs.Arc.{arc_value};
ghost use Rattle.agent_conf.specs.LoadFaults.{Causes, MemoryIsApart, Tells, is_read_fault};
ghost use Rattle.agent_conf.specs.Loading.{admitted, conf_in, loaded, place_of_default};
ghost use Rattle.agent_conf.specs.Seen.{seen};
ghost use Rattle.agent_conf.specs.Unread.{LoadOpens, WhereUnread};
ghost use Rattle.sec_read.specs.declared.faults.Fault.{Fault};
ghost use Rattle.agent_conf.specs.declared.load_fault.LoadFault.TheVariants as faults;
ghost use Rattle.agent_conf.specs.Faults.{reading};
ghost use Rattle.agent_conf.specs.declared.limits.TheConstants.{APP_LIMIT, SHARD_LIMIT, WORKER_LIMIT};

mod apps;
mod rules;

use crate::limits::CONF_LIMIT;
use crate::{AppConf, Conf, ConfFault, LoadFault, read_conf};
use apps::load_apps;
pub use rules::load_rules;
use sec_compile::Ruleset;
use shelf::Apps;
use std::alloc::Global;
use std::sync::Arc;
use waf_io::{FileAnswer, Files};

/// The configuration under that name, and its applications with their rules, which are read and
/// compiled in the order of the configuration. The default's place is the fallback. A rule file whose
/// name does not begin with `/` stands in the folder of the configuration. The first fault counts;
/// of an application that of its rule files comes before that of its patterns.
#[tactic(auto, unfolding(crate::specs::Loading::loaded))]
pub fn load<F: Files>(
    alloc: Global,
    name: &[u8],
    files: &mut F,
) -> Result<(Conf, Apps<Arc<Ruleset, Global>>), LoadFault>
    ensures told { IfSome (F.content files.old) (λ told. Tells (seen arc_value) result (loaded told name.now)) }
    ensures same { F.content files.new ≡ F.content files.old }
    ensures later { F.faults files.old ≤ F.faults files.new }
    ensures cause { Causes result (F.faults files.old) (F.faults files.new) }
    ensures memory { IfErr result MemoryIsApart }
    ensures place { IfSome (F.content files.old) (λ told. WhereUnread result (LoadOpens told name.now)) }
    ensures shards { IfOk result (λ found. (0 < found.0.shards) × (found.0.shards ≤ SHARD_LIMIT)) }
    ensures workers { IfOk result (λ found. (0 < found.0.workers) × (found.0.workers ≤ WORKER_LIMIT)) }
{
    let conf = load_conf(alloc, name, files)?;
    let list = load_apps(alloc, name, conf.apps.as_slice(), files)?;
    let fallback = place_of_default(&conf);
    Ok((conf, Apps { list, fallback }))
}

// The configuration of a file.
fn load_conf<F: Files>(alloc: Global, name: &[u8], files: &mut F) -> Result<Conf, LoadFault>
    ensures told { IfSome (F.content files.old) (λ told. Tells (λ conf. conf) result (conf_in (told name.now))) }
    ensures same { F.content files.new ≡ F.content files.old }
    ensures later { F.faults files.old ≤ F.faults files.new }
    ensures cause { Causes result (F.faults files.old) (F.faults files.new) }
    ensures memory { IfErr result MemoryIsApart }
    ensures no_rules { (fault : Fault) → result ≢ Err (faults.Rules fault) }
    ensures few { IfOk result (λ conf. length conf.apps ≤ APP_LIMIT) }
    ensures shards { IfOk result (λ conf. (0 < conf.shards) × (conf.shards ≤ SHARD_LIMIT)) }
    ensures workers { IfOk result (λ conf. (0 < conf.workers) × (conf.workers ≤ WORKER_LIMIT)) }
{
    match files.read_file(alloc, name, CONF_LIMIT) {
        FileAnswer::Content(text) => conf_of_text(alloc, text.as_slice()),
        FileAnswer::Absent => Err(LoadFault::NoFile),
        FileAnswer::TooLong => Err(LoadFault::TooLong),
        FileAnswer::Failed => Err(LoadFault::ReadFault),
        FileAnswer::NoMemory => Err(LoadFault::NoMemory),
    }
}

#[tactic(auto, using(crate::proofs::Few::few_read))]
fn conf_of_text(alloc: Global, text: &[u8]) -> Result<Conf, LoadFault>
    ensures told { Tells (λ conf. conf) result (admitted (reading text.now)) }
    ensures read { IfErr result (λ fault. is_read_fault fault ≡ false) }
    ensures memory { IfErr result MemoryIsApart }
    ensures no_rules { (fault : Fault) → result ≢ Err (faults.Rules fault) }
    ensures few { IfOk result (λ conf. length conf.apps ≤ APP_LIMIT) }
    ensures shards { IfOk result (λ conf. (0 < conf.shards) × (conf.shards ≤ SHARD_LIMIT)) }
    ensures workers { IfOk result (λ conf. (0 < conf.workers) × (conf.workers ≤ WORKER_LIMIT)) }
{
    match read_conf(alloc, text) {
        Ok(conf) => Ok(conf),
        Err(ConfFault::NoMemory) => Err(LoadFault::NoMemory),
        Err(fault) => Err(LoadFault::Conf(fault)),
    }
}

// The place of the application that the configuration names as its default.
fn place_of_default(conf: &Conf) -> Option<u32>
    requires few { length conf.now.apps ≤ APP_LIMIT }
    ensures place { result ≡ place_of_default conf.now.fallback conf.now.apps }
    ensures within { IfSome result (λ place. place < length conf.now.apps) }
{
    match &conf.fallback {
        None => None,
        Some(name) => match place_of(conf.apps.as_slice(), name.as_slice()) {
            Some(place) => Some(place as u32),
            None => None,
        },
    }
}

fn place_of(apps: &[AppConf], name: &[u8]) -> Option<usize>
    ensures place { result ≡ position (λ app. bytes_eq app.name name.now) apps.now }
    ensures within { IfSome result (λ place. place < length apps.now) }
{
    apps.iter().position(|app| app.name.as_slice() == name)
}
