ghost use Rattle.std.specs.Prelude.{◌≡◌, true};
ghost use Rattle.agent_conf.specs.LoadFaults.{is_told};
ghost use Rattle.reports.specs.CommandFaults.{IsFaultOf};

use crate::lines::fault_line;
use agent_conf::LoadFault;
use std::alloc::Global;
use waf_plain::{Bytes, NoMemory};

/// Why a command comes to no result.
#[derive(Debug, PartialEq, Drop)]
pub enum CommandFault {
    // the line of a fault in what was read
    Line(Bytes),
    ReadFault,
    NoMemory,
}

impl From<NoMemory> for CommandFault {
    ghost use Rattle.std.specs.Prelude.{◌≡◌};
    ghost use Rattle.reports.specs.declared.faults.CommandFault.TheVariants.{NoMemory as no_memory};

    ghost from_gives = { λ _ e. e ≡ no_memory };

    fn from(_: NoMemory) -> CommandFault {
        CommandFault::NoMemory
    }
}

/// What a fault of loading comes to, under the name of what was loaded.
pub fn command_fault(alloc: Global, name: &[u8], fault: LoadFault) -> CommandFault
    ensures { IsFaultOf result name.now fault }
{
    match fault {
        LoadFault::NoMemory => CommandFault::NoMemory,
        fault if fault.is_read_fault() => CommandFault::ReadFault,
        fault => in_line(alloc, name, &fault),
    }
}

fn in_line(alloc: Global, name: &[u8], fault: &LoadFault) -> CommandFault
    requires { is_told fault.now ≡ true }
    ensures { IsFaultOf result name.now fault.now }
{
    match fault_line(alloc, name, fault) {
        Ok(line) => CommandFault::Line(line),
        Err(NoMemory) => CommandFault::NoMemory,
    }
}
