ghost use Rattle.std.specs.Prelude.{◌≡◌, ◌⊎◌, Err};
ghost use Rattle.agent_conf.specs.Faults.{reading};

use crate::ConfFault;
use crate::checks::check_applications;
use crate::keys::check_keys;
use crate::table::document;
use crate::top::values;
use std::alloc::Global;
use waf_plain::{Bytes, Seq};

/// An application: which rules judge its requests, and whether they judge its responses too.
#[derive(Debug, PartialEq, Drop)]
pub struct AppConf {
    /// At most 256 bytes, none of them below 32.
    pub name: Bytes,
    /// The names of the rule files, in the order in which they are read.
    pub rules: Seq<Bytes>,
    pub responses: bool,
    /// How long a request waits for its response, in milliseconds.
    pub life: u64,
}

/// A configuration.
#[derive(Debug, PartialEq, Drop)]
pub struct Conf {
    /// The largest frame that the agent takes.
    pub size: u32,
    /// How many requests may wait for their responses in one shard.
    pub capacity: u32,
    pub shards: u32,
    pub workers: u32,
    /// The address and the port that the agent listens on.
    pub listen: Bytes,
    /// The application that serves where a message names one that is unknown.
    pub fallback: Option<Bytes>,
    pub apps: Seq<AppConf>,
}

/// The configuration that a TOML document tells, or the first fault, in the order of `ConfFault`.
///
/// At the top: `size`, 256 to 65536, 16380 where absent; `capacity`, 1 to 16384, and 16384 divided by
/// `shards` where absent; `shards`, 1 to 64, 1 where absent; `workers`, 1 to 64, 64 where absent;
/// `listen`, 1 to 256 bytes, `127.0.0.1:9000` where absent; `default`, the name of an application;
/// `app`, at most 64 tables; and once more `capacity`, since all shards together hold at most 16384.
/// In each application: `name`, at most 256 bytes, none below 32; `rules`, a list of texts of 1 to
/// 4096 bytes; `responses`, false where absent; `life`, 1 to 86400000, 60000 where absent.
pub fn read_conf(alloc: Global, text: &[u8]) -> Result<Conf, ConfFault>
    ensures { (result ≡ reading text.now) ⊎ (result ≡ Err ConfFault.NoMemory) }
{
    let top = document(alloc, text)?;
    check_keys(alloc, &top)?;
    let conf = values(alloc, &top)?;
    check_applications(alloc, &conf)?;
    Ok(conf)
}
