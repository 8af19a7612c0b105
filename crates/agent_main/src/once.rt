ghost use Rattle.std.specs.Prelude.{◌≡◌, ◌≢◌, ◌⊎◌, Err, IfSome, List, Ok, ℕ};
ghost use Rattle.waf_io.specs.Counts.{Rose};
ghost use Rattle.agent_main.specs.Listings.{listing_under};
ghost use Rattle.reports.specs.Report.{FilesFailFirst, Prints};
ghost use Rattle.agent_main.specs.Run.{Exits, status_of};
ghost use Rattle.reports.specs.declared.exit_status.TheConstants.{DOOR_FAULT, OTHER_WORDS, READ_FAULT, REFUSED, WRITE_FAULT};
ghost use Rattle.sec_ast.specs.declared.listing.Listing.{Listing};

use crate::judge::OnceHost;
use crate::listings::rules_of;
use conn_core::Closing;
use conn_loop::{ConnEnd, serve};
use reports::exit_status::{DONE, OUT_OF_MEMORY, READ_FAULT, REFUSED, UNFINISHED, WRITE_FAULT};
use reports::{CommandFault, report};
use sec_compile::Ruleset;
use spop_frame::status;
use std::alloc::Global;
use waf_io::{Files, Sink, Source};
use waf_plain::NoMemory;

// The longest frame that the agent offers to take.
pub const OWN_SIZE: u32 = 16380;

// Serves the input by the rules of that name.
pub fn once<F: Files, S: Source, K: Sink>(
    alloc: Global,
    name: &[u8],
    files: &mut F,
    input: &mut S,
    output: &mut K,
) -> u8
    ensures other { (result ≢ OTHER_WORDS) × (result ≢ DOOR_FAULT) }
    ensures refused { IfSome (F.content files.old) (λ told. (line : List ℕ) → listing_under told name.now ≡ Err line
        → Prints result REFUSED line
        (F.faults files.old) (F.faults files.new) (K.held output.old) (K.held output.new)
        × (S.left input.new ≡ S.left input.old)) }
    ensures served { IfSome (F.content files.old) (λ told. (rules : Listing) → listing_under told name.now ≡ Ok rules
        → Exits result rules (S.left input.old) (S.left input.new) (S.ends input.old) (S.ends input.new)
        (K.held output.old) (K.held output.new)
        ⊎ FilesFailFirst result (F.faults files.old) (F.faults files.new)
        (S.left input.old) (S.left input.new) (K.held output.old) (K.held output.new)) }
    ensures unread { result ≡ REFUSED → S.left input.new ≡ S.left input.old }
    ensures read_fault { result ≡ READ_FAULT
        → Rose (F.faults files.old) (F.faults files.new) ⊎ Rose (S.faults input.old) (S.faults input.new) }
    ensures write_fault { result ≡ WRITE_FAULT → Rose (K.faults output.old) (K.faults output.new) }
{
    match rules_of(alloc, name, files) {
        Ok(rules) => under(alloc, rules, input, output),
        Err(CommandFault::Line(line)) => report(output, line.as_slice(), REFUSED),
        Err(CommandFault::ReadFault) => READ_FAULT,
        Err(CommandFault::NoMemory) => OUT_OF_MEMORY,
    }
}

// Serves the input by these rules.
fn under<S: Source, K: Sink>(alloc: Global, rules: Ruleset, input: &mut S, output: &mut K) -> u8
    ensures other { (result ≢ OTHER_WORDS) × (result ≢ REFUSED) × (result ≢ DOOR_FAULT) }
    ensures served { Exits result rules (S.left input.old) (S.left input.new) (S.ends input.old) (S.ends input.new)
        (K.held output.old) (K.held output.new) }
    ensures read_fault { result ≡ READ_FAULT → Rose (S.faults input.old) (S.faults input.new) }
    ensures write_fault { result ≡ WRITE_FAULT → Rose (K.faults output.old) (K.faults output.new) }
{
    match OnceHost::new(alloc, rules) {
        Ok(mut host) => status_of(serve(alloc, OWN_SIZE, &mut host, input, output)),
        Err(NoMemory) => OUT_OF_MEMORY,
    }
}

// The exit status for the end of a connection.
fn status_of(end: ConnEnd) -> u8
    ensures { result ≡ status_of end }
{
    match end {
        ConnEnd::Closed(Closing::Done) => DONE,
        ConnEnd::Closed(Closing::Ended(status::NO_MEMORY)) => OUT_OF_MEMORY,
        ConnEnd::Closed(_) => UNFINISHED,
        ConnEnd::Spent => UNFINISHED,
        ConnEnd::ReadFault => READ_FAULT,
        ConnEnd::WriteFault => WRITE_FAULT,
        ConnEnd::NoMemory => OUT_OF_MEMORY,
    }
}
