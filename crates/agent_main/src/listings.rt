ghost use Rattle.std.specs.Prelude.{◌≡◌, ◌≤◌, ◌∷◌, [], Err, IfOk, IfSome};
ghost use Rattle.waf_io.specs.Counts.{Rose};
ghost use Rattle.reports.specs.declared.faults.CommandFault.TheVariants as faults;
ghost use Rattle.reports.specs.CommandFaults.{Tells};
ghost use Rattle.agent_main.specs.Listings.{listing_under};

use agent_conf::load_rules;
use reports::{CommandFault, command_fault};
use sec_compile::Ruleset;
use std::alloc::Global;
use waf_io::Files;
use waf_plain::{Bytes, NoMemory, Seq};

// The rules of a file, compiled, or the line of the first fault.
pub fn rules_of<F: Files>(
    alloc: Global,
    name: &[u8],
    files: &mut F,
) -> Result<Ruleset, CommandFault>
    ensures told { IfSome (F.content files.old) (λ told. Tells result (listing_under told name.now)) }
    ensures same { F.content files.new ≡ F.content files.old }
    ensures later { F.faults files.old ≤ F.faults files.new }
    ensures cause { result ≡ Err faults.ReadFault → Rose (F.faults files.old) (F.faults files.new) }
{
    let names = only(alloc, name)?;
    match load_rules(alloc, &names, files) {
        Ok(rules) => Ok(rules),
        Err(fault) => Err(command_fault(alloc, name, fault)),
    }
}

// A list of one name.
fn only(alloc: Global, name: &[u8]) -> Result<Seq<Bytes>, NoMemory>
    ensures { IfOk result (λ names. names ≡ name.now ∷ []) }
{
    let mut names = Seq::new(alloc);
    names.push(Bytes::copy(alloc, name)?)?;
    Ok(names)
}
