ghost use Rattle.std.specs.Prelude.{◌≡◌, IfOk, map, option_map};
ghost use Rattle.command_line.specs.Words.{command_of, text_command, texts_in};

use crate::command::Command;
use crate::definition::parse;
use crate::help::{asks_help, asks_version};
use crate::values::command_in;
use clap::error::ErrorKind;
use std::alloc::Global;
use waf_plain::{Bytes, NoMemory};

/// What the words of a command line ask for, without the program's name. A file's name is copied.
pub fn read_words(alloc: Global, words: &[Bytes]) -> Result<Command, NoMemory>
    ensures { IfOk result (λ command. command ≡ command_of words.now) }
{
    match texts_in(alloc, words)? {
        Some(texts) => text_command(alloc, texts.as_slice()),
        None => Ok(Command::Other),
    }
}

// The words as texts, where each is one.
fn texts_in<'a>(alloc: Global, words: &'a [Bytes]) -> Result<Option<Vec<&'a str>>, NoMemory>
    ensures { IfOk result (λ found.
        option_map (λ texts. map (λ t. t.now) texts.items) found ≡ texts_in words.entry.now) }
{
    let mut texts = Vec::new(alloc);
    for word in words {
        let Ok(text) = std::str::from_utf8(word.as_slice()) else {
            return Ok(None);
        };
        texts.push(text)?;
    }
    Ok(Some(texts))
}

fn text_command(alloc: Global, words: &[&str]) -> Result<Command, NoMemory>
    ensures { IfOk result (λ command. command ≡ text_command (map (λ w. w.now) words.now)) }
{
    if asks_help(words) {
        return Ok(Command::Help);
    }
    if asks_version(words) {
        return Ok(Command::Version);
    }
    match parse(alloc, words) {
        Ok(matches) => command_in(alloc, &matches),
        Err(error) => match error.kind() {
            ErrorKind::OutOfMemory => Err(NoMemory),
            _ => Ok(Command::Other),
        },
    }
}
