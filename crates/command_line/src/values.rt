ghost use Rattle.std.specs.Prelude.{◌≡◌, IfOk};
ghost use Rattle.clap.specs.Words.{found_of, rows_of, subcommand_rows_of};
ghost use Rattle.command_line.specs.Words.{command_in, command_named, generate_of, value_of};

use crate::command::Command;
use crate::names::{CHECK, CONF, COUNT, GENERATE, ONCE, PLAIN, REPLAY, RULES, SEED, SERVE};
use crate::numbers::read_number;
use clap::ArgMatches;
use std::alloc::Global;
use waf_plain::{Bytes, NoMemory};

const MIN_COUNT: u64 = 1;

const MAX_COUNT: u64 = 5000;

// The command that clap entered.
pub(crate) fn command_in(alloc: Global, matches: &ArgMatches<'_>) -> Result<Command, NoMemory>
    ensures { IfOk result (λ command. command ≡ command_in (subcommand_rows_of matches.now)) }
{
    match matches.subcommand() {
        Some((name, values)) => command_named(alloc, name, values),
        None => Ok(Command::Other),
    }
}

fn command_named(alloc: Global, name: &str, values: &ArgMatches<'_>) -> Result<Command, NoMemory>
    ensures { IfOk result (λ command. command ≡ command_named name.now (rows_of (found_of values.now))) }
{
    Ok(if name == CHECK {
        Command::Check(copy_of(alloc, values, CONF)?)
    } else if name == ONCE {
        Command::Once(copy_of(alloc, values, RULES)?)
    } else if name == REPLAY {
        Command::Replay {
            plain: value_of(values, PLAIN) == "true",
            conf: copy_of(alloc, values, CONF)?,
        }
    } else if name == GENERATE {
        generate_of(value_of(values, SEED), value_of(values, COUNT)).unwrap_or(Command::Other)
    } else if name == SERVE {
        Command::Serve(copy_of(alloc, values, CONF)?)
    } else {
        Command::Other
    })
}

fn generate_of(seed: &str, count: &str) -> Option<Command>
    ensures { result ≡ generate_of seed.now count.now }
{
    let seed = read_number(seed, 0, u64::MAX)?;
    let count = read_number(count, MIN_COUNT, MAX_COUNT)? as u32;
    Some(Command::Generate { seed, count })
}

fn copy_of(alloc: Global, values: &ArgMatches<'_>, id: &str) -> Result<Bytes, NoMemory>
    ensures { IfOk result (λ copy. copy ≡ value_of id.now (rows_of (found_of values.now))) }
{
    Bytes::copy(alloc, value_of(values, id).as_bytes())
}

// Where clap takes the words, each that has to be there has a value, and so has each flag.
fn value_of<'a>(values: &ArgMatches<'a>, id: &str) -> &'a str
    ensures { result.now ≡ value_of id.now (rows_of (found_of values.now)) }
{
    values.get_str(id).unwrap_or("")
}
