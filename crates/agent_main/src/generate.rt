ghost use Rattle.std.specs.Prelude.{◌≡◌, ◌≢◌, Err, IfOk, Ok};
ghost use Rattle.waf_io.specs.Counts.{Rose};
ghost use Rattle.reports.specs.declared.faults.CommandFault.TheVariants as faults;
ghost use Rattle.reports.specs.declared.exit_status.TheConstants.{DOOR_FAULT, OTHER_WORDS, READ_FAULT, UNFINISHED, WRITE_FAULT};
ghost use Rattle.agent_main.specs.Generate.{AreOnly, Generated, TellsCounts, built_in_files, limits};

use crate::listings::rules_of;
use crate::playing::{Limits, played};
use crate::summary::summary;
use reports::exit_status::{DONE, OUT_OF_MEMORY, REFUSED};
use reports::{CommandFault, report};
use sec_compile::Ruleset;
use shelf::{App, Apps, Settings};
use std::alloc::Global;
use std::sync::Arc;
use waf_io::{InfallibleFiles, MemFile, Sink};
use waf_plain::{Bytes, NoMemory, Seq};
use workload::{RULES, RULES_NAME, SHARDS, script};
use world_core::{Halves, Handle};

const SIZE: u32 = 16380;

const CAPACITY: u32 = 4096;

// How long a request waits for its response, in units of the clock.
const LIFE: u64 = 500;

// The rule that denies requests, that which denies responses, and that which passes each response.
pub const REQUEST_RULE: u32 = 100;

pub const RESPONSE_RULE: u32 = 7;

pub const PASSED_RULE: u32 = 8;

// Prints the counts of a run over the script that is made of a seed, over so many transactions.
pub fn generate<K: Sink>(alloc: Global, seed: u64, count: u32, output: &mut K) -> u8
    ensures other { (result ≢ UNFINISHED) × (result ≢ OTHER_WORDS) × (result ≢ READ_FAULT) × (result ≢ DOOR_FAULT) }
    ensures generated { Generated result seed count (K.held output.old) (K.held output.new) }
    ensures write_fault { result ≡ WRITE_FAULT → Rose (K.faults output.old) (K.faults output.new) }
{
    match counts(alloc, seed, count) {
        Ok(text) => report(output, text.as_slice(), DONE),
        Err(CommandFault::Line(line)) => report(output, line.as_slice(), REFUSED),
        Err(CommandFault::ReadFault) => unreachable!(),
        Err(CommandFault::NoMemory) => OUT_OF_MEMORY,
    }
}

// The text that is printed.
fn counts(alloc: Global, seed: u64, count: u32) -> Result<Bytes, CommandFault>
    ensures told { TellsCounts seed count result }
    ensures no_read { result ≢ Err faults.ReadFault }
{
    let mut files = rules_file(alloc)?;
    let rules = rules_of(alloc, RULES_NAME, &mut files)?;
    let apps = only(alloc, rules)?;
    let commands = script(alloc, seed, count)?;
    let commands = commands.as_slice();
    let entries = played(
        alloc,
        Halves {},
        RULES_NAME,
        &mut files,
        limits(),
        apps,
        commands,
    )?;
    Ok(summary(alloc, count, entries.as_slice())?)
}

fn limits() -> Limits
    ensures { result ≡ limits }
{
    Limits {
        size: SIZE,
        shards: SHARDS as u32,
        capacity: CAPACITY,
    }
}

// A file of the rules, in memory.
fn rules_file(alloc: Global) -> Result<InfallibleFiles, NoMemory>
    ensures { IfOk result (λ files. files ≡ built_in_files) }
{
    let mut files = Seq::new(alloc);
    files.push(MemFile {
        name: Bytes::copy(alloc, RULES_NAME)?,
        content: Bytes::copy(alloc, RULES)?,
    })?;
    Ok(InfallibleFiles::new(files))
}

// The application that has these rules.
fn only(alloc: Global, rules: Ruleset) -> Result<Apps<Handle>, NoMemory>
    ensures { IfOk result (AreOnly rules) }
{
    let mut list = Seq::new(alloc);
    list.push(App {
        name: Bytes::new(alloc),
        rules: Arc::new(alloc, rules)?,
        settings: Settings {
            responses: true,
            life: LIFE,
        },
    })?;
    Ok(Apps {
        list,
        fallback: Some(0),
    })
}
