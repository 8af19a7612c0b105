ghost use Rattle.std.specs.Prelude.{◌≡◌, [], map, option_map};
ghost use Rattle.agent_conf.specs.Applications.{application_faults, doubled, names, unknown_default};
ghost use Rattle.agent_conf.specs.Keys.{is_among};
ghost use Rattle.agent_conf.specs.Reading.{IsFirst, first};

use crate::{AppConf, Conf, ConfFault};
use std::alloc::Global;
use waf_plain::Bytes;

// There is an application, each has a name of its own, and the default is one of them.
pub(crate) fn check_applications(alloc: Global, conf: &Conf) -> Result<(), ConfFault>
    ensures { IsFirst result (application_faults conf.now) }
{
    let apps = conf.apps.as_slice();
    if apps.is_empty() {
        return Err(ConfFault::NoApp);
    }
    if let Some(name) = doubled_name(apps) {
        return Err(ConfFault::DoubleApp(Bytes::copy(alloc, name)?));
    }
    if let Some(name) = unknown_default(conf) {
        return Err(ConfFault::UnknownDefault(Bytes::copy(alloc, name)?));
    }
    Ok(())
}

// The first name that an earlier application has.
fn doubled_name(apps: &[AppConf]) -> Option<&[u8]>
    ensures { option_map (λ n. n.now) result ≡ first (doubled [] (names apps.now)) }
{
    for (at, app) in apps.iter().enumerate() {
        let (before, _) = apps.split_at(at);
        if is_named(before, app.name.as_slice()) {
            return Some(app.name.as_slice());
        }
    }
    None
}

fn is_named(apps: &[AppConf], name: &[u8]) -> bool
    ensures { result ≡ is_among (names apps.now) name.now }
{
    for app in apps {
        if app.name.as_slice() == name {
            return true;
        }
    }
    false
}

fn unknown_default(conf: &Conf) -> Option<&[u8]>
    ensures { option_map (λ n. n.now) result ≡ first (unknown_default conf.now.fallback (names conf.now.apps)) }
{
    match &conf.fallback {
        Some(name) if !is_named(conf.apps.as_slice(), name.as_slice()) => Some(name.as_slice()),
        _ => None,
    }
}
