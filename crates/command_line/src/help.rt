ghost use Rattle.std.specs.Prelude.{◌≡◌, map};
ghost use Rattle.command_line.specs.Help.{asks_help, asks_version, is_command, is_help_flag};

use crate::names::{CHECK, GENERATE, ONCE, REPLAY, SERVE};

pub(crate) fn asks_help(words: &[&str]) -> bool
    ensures { result ≡ asks_help (map (λ w. w.now) words.now) }
{
    match words {
        [word] => is_help_flag(word) || *word == "help",
        [name, word] => is_command(name) && is_help_flag(word),
        _ => false,
    }
}

pub(crate) fn asks_version(words: &[&str]) -> bool
    ensures { result ≡ asks_version (map (λ w. w.now) words.now) }
{
    match words {
        [word] => *word == "--version" || *word == "-V",
        _ => false,
    }
}

fn is_help_flag(word: &str) -> bool
    ensures { result ≡ is_help_flag word.now }
{
    word == "--help" || word == "-h"
}

fn is_command(word: &str) -> bool
    ensures { result ≡ is_command word.now }
{
    word == CHECK || word == ONCE || word == REPLAY || word == GENERATE || word == SERVE
}
