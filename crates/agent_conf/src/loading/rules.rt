//! Rules of some files.
ghost use Rattle.std.specs.Prelude.{◌≡◌, ◌≤◌, IfErr, IfSome, Err, Result, false, true};
ghost use Rattle.agent_conf.specs.LoadFaults.{Causes, MemoryIsApart, Tells, is_read_fault, is_told};
ghost use Rattle.agent_conf.specs.Loading.{compiled, rules_in, unless};
ghost use Rattle.sec_compile.specs.Unread.{first_fault};
ghost use Rattle.sec_read.specs.declared.faults.Found.{Found};
ghost use Rattle.sec_read.specs.Listing.{IsFirstFault};
ghost use Rattle.sec_read.specs.Places.{IsPlaceOf};
ghost use Rattle.agent_conf.specs.Unread.{WhereUnread};

use crate::LoadFault;
use sec_ast::Listing;
use sec_compile::{CompileFault, Ruleset, compile};
use sec_read::{Fault, Kind, read_all};
use std::alloc::Global;
use waf_io::Files;
use waf_plain::{Bytes, Seq};

/// The rules of these files, read one after the other as if they were one, and compiled.
pub fn load_rules<F: Files>(
    alloc: Global,
    names: &Seq<Bytes>,
    files: &mut F,
) -> Result<Ruleset, LoadFault>
    ensures told { IfSome (F.content files.old) (λ told. Tells (λ rules. rules) result (rules_in told names.now)) }
    ensures same { F.content files.new ≡ F.content files.old }
    ensures later { F.faults files.old ≤ F.faults files.new }
    ensures cause { Causes result (F.faults files.old) (F.faults files.new) }
    ensures memory { IfErr result MemoryIsApart }
    ensures place { IfSome (F.content files.old) (λ told. WhereUnread result (IsPlaceOf told names.now)) }
{
    match read_all(alloc, names, files) {
        Ok(listing) => compile_all(alloc, listing),
        Err(fault) => Err(refused(fault)),
    }
}

fn compile_all(alloc: Global, listing: Listing) -> Result<Ruleset, LoadFault>
    ensures told { Tells (λ rules. rules) result (unless (first_fault listing.items) listing) }
    ensures read { IfErr result (λ fault. is_read_fault fault ≡ false) }
    ensures memory { IfErr result MemoryIsApart }
{
    match compile(alloc, listing) {
        Ok(rules) => Ok(rules),
        Err(CompileFault::NoMemory) => Err(LoadFault::NoMemory),
        Err(fault) => Err(LoadFault::Compile(fault)),
    }
}

// A fault of reading, or that there was no memory.
#[tactic(auto, using(crate::proofs::Loads::refused))]
fn refused(fault: Fault) -> LoadFault
    ensures told { (read : Result Listing Found) → IsFirstFault read fault fault.kind
        → is_told result ≡ true → compiled read ≡ Err result }
    ensures cause { is_read_fault result ≡ true → fault.kind ≡ Kind.ReadFault }
    ensures kept { (kept : Fault) → result ≡ LoadFault.Rules kept → kept ≡ fault }
    ensures memory { MemoryIsApart result }
{
    match fault.kind {
        Kind::NoMemory => LoadFault::NoMemory,
        _ => LoadFault::Rules(fault),
    }
}
