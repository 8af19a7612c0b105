ghost use Rattle.std.specs.Prelude.{◌≡◌, IfOk, false, map};
ghost use Rattle.clap.specs.Words.{FailsBy, app_of, fault_of, rule_of, subcommand_of, subcommand_rows_of};
ghost use Rattle.clap.specs.declared.builder.command.Command.TheViews.{out-Command as fields_of};
ghost use Rattle.command_line.specs.Definition.{agent, check, empty_agent, flag, generate, once, positional, replay, serve};

use crate::names::{CHECK, CONF, COUNT, GENERATE, ONCE, PLAIN, REPLAY, RULES, SEED, SERVE};
use clap::{Arg, ArgAction, ArgMatches, Command, Error};
use std::alloc::{AllocError, Global};

// One word that has to be there.
fn positional<'a>(alloc: Global, id: &'a str) -> Arg<'a>
    ensures rule { rule_of result ≡ positional id.entry.now }
    ensures local { result.global ≡ false }
{
    Arg::new(alloc, id).required(true)
}

// A word of two hyphens and a name, which may be there.
fn flag<'a>(alloc: Global, id: &'a str) -> Arg<'a>
    ensures rule { rule_of result ≡ flag id.entry.now }
    ensures local { result.global ≡ false }
{
    Arg::new(alloc, id).long(id).action(ArgAction::SetTrue)
}

fn check_command<'a>(alloc: Global) -> Result<Command<'a>, AllocError>
    ensures shape { IfOk result (λ c. app_of c ≡ check) }
    ensures local { IfOk result (λ c. (fields_of c).has_globals ≡ false) }
{
    Command::new(alloc, CHECK).arg(positional(alloc, CONF))
}

fn once_command<'a>(alloc: Global) -> Result<Command<'a>, AllocError>
    ensures shape { IfOk result (λ c. app_of c ≡ once) }
    ensures local { IfOk result (λ c. (fields_of c).has_globals ≡ false) }
{
    Command::new(alloc, ONCE).arg(positional(alloc, RULES))
}

fn replay_command<'a>(alloc: Global) -> Result<Command<'a>, AllocError>
    ensures shape { IfOk result (λ c. app_of c ≡ replay) }
    ensures local { IfOk result (λ c. (fields_of c).has_globals ≡ false) }
{
    Command::new(alloc, REPLAY)
        .arg(flag(alloc, PLAIN))?
        .arg(positional(alloc, CONF))
}

fn generate_command<'a>(alloc: Global) -> Result<Command<'a>, AllocError>
    ensures shape { IfOk result (λ c. app_of c ≡ generate) }
    ensures local { IfOk result (λ c. (fields_of c).has_globals ≡ false) }
{
    Command::new(alloc, GENERATE)
        .arg(positional(alloc, SEED))?
        .arg(positional(alloc, COUNT))
}

fn serve_command<'a>(alloc: Global) -> Result<Command<'a>, AllocError>
    ensures shape { IfOk result (λ c. app_of c ≡ serve) }
    ensures local { IfOk result (λ c. (fields_of c).has_globals ≡ false) }
{
    Command::new(alloc, SERVE).arg(positional(alloc, CONF))
}

// No help and no version of clap's own, and a subcommand has to be there.
fn empty_command<'a>(alloc: Global) -> Command<'a>
    ensures shape { app_of result ≡ empty_agent }
    ensures local { (fields_of result).has_globals ≡ false }
{
    Command::new(alloc, "agent")
        .no_binary_name(true)
        .disable_help_flag(true)
        .disable_version_flag(true)
        .disable_help_subcommand(true)
        .subcommand_required(true)
}

fn agent_command<'a>(alloc: Global) -> Result<Command<'a>, AllocError>
    ensures shape { IfOk result (λ c. app_of c ≡ agent) }
{
    empty_command(alloc)
        .subcommand(check_command(alloc)?)?
        .subcommand(once_command(alloc)?)?
        .subcommand(replay_command(alloc)?)?
        .subcommand(generate_command(alloc)?)?
        .subcommand(serve_command(alloc)?)
}

// Reads the words by clap.
pub(crate) fn parse<'a>(alloc: Global, words: &'a [&'a str]) -> Result<ArgMatches<'a>, Error>
    ensures entered { IfOk result (λ m. subcommand_rows_of m
        ≡ subcommand_of agent (map (λ w. w.now) words.entry.now)) }
    ensures causes { FailsBy (fault_of agent (map (λ w. w.now) words.entry.now)) result }
{
    let command = agent_command(alloc)?;
    command.try_get_matches_from(words)
}
