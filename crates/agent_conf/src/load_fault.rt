use crate::ConfFault;
use sec_compile::CompileFault;
use sec_read::{Fault, Kind};
use waf_plain::NoMemory;

/// Why a configuration and its rules were not loaded.
#[derive(Debug, Drop)]
pub enum LoadFault {
    /// No file has the name of the configuration.
    NoFile,
    /// The configuration has more than 1 MiB.
    TooLong,
    /// The configuration could not be read.
    ReadFault,
    Conf(ConfFault),
    /// Of a rule file; its kind is `ReadFault` where that one could not be read.
    Rules(Fault),
    Compile(CompileFault),
    NoMemory,
}

impl LoadFault {
    ghost use Rattle.std.specs.Prelude.{◌≡◌};
    ghost use Rattle.agent_conf.specs.LoadFaults.{is_read_fault};

    /// Whether a file could not be read.
    pub fn is_read_fault(&self) -> bool
        ensures { result ≡ is_read_fault self.now }
    {
        match self {
            LoadFault::ReadFault => true,
            LoadFault::Rules(fault) => matches!(fault.kind, Kind::ReadFault),
            _ => false,
        }
    }
}

impl From<NoMemory> for LoadFault {
    ghost use Rattle.std.specs.Prelude.{◌≡◌};
    ghost use Rattle.agent_conf.specs.declared.load_fault.LoadFault.TheVariants.{NoMemory as no_memory};

    ghost from_gives = { λ _ e. e ≡ no_memory };

    fn from(_: NoMemory) -> LoadFault {
        LoadFault::NoMemory
    }
}
