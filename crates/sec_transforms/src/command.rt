ghost use Rattle.std.specs.Prelude.{◌≡◌, ◌++◌, [], ◌∷◌, List, ℕ, map, take, IfOk, OnOk, IfSome, IsTrue, ◌↔◌};
ghost use Rattle.std.specs.Char.{to_ascii_lowercase};
ghost use Rattle.sec_decoders.specs.declared.pieces.TheConstants.{LIMIT};
ghost use Rattle.sec_transforms.specs.CmdLine.{closed_up, cmd_line, squeezed, to_come, is_mark, is_blank, closes};

use crate::absence::{LONG, lacks, lacks_bytes};
use crate::characters::{CIRCUMFLEX, COMMA, OPENING_PARENTHESIS, SINGLE_QUOTE, SLASH};
use crate::limit::cut;
use sec_decoders::LIMIT;
use sec_decoders::characters::{
    BACKSLASH, CARRIAGE_RETURN, LINE_FEED, QUOTE, SEMICOLON, SPACE, TAB,
};
use std::alloc::Global;
use waf_plain::{Bytes, NoMemory};

/// `cmdLine`: the ways to write a command that shells read alike.
pub(crate) fn cmd_line(alloc: Global, value: &[u8]) -> Result<Bytes, NoMemory>
    ensures { IfOk result (λ bytes. bytes ≡ take LIMIT (cmd_line value.now)) }
{
    if is_quiet(value) {
        return Ok(cut(Bytes::from_vec(value.to_ascii_lowercase(alloc)?)));
    }
    line_of(alloc, value)
}

/// Whether a value is long, and nothing of it changes but its letters.
fn is_quiet(text: &[u8]) -> bool
    ensures { IsTrue result → cmd_line text.now ≡ map to_ascii_lowercase text.now }
{
    if text.len() < LONG {
        return false;
    }
    if !lacks_bytes(text, BACKSLASH, QUOTE, SINGLE_QUOTE) {
        return false;
    }
    if !lacks_bytes(text, CIRCUMFLEX, COMMA, SEMICOLON) {
        return false;
    }
    if !lacks_bytes(text, TAB, LINE_FEED, CARRIAGE_RETURN) {
        return false;
    }
    keeps_spaces(text)
}

/// Whether each space stays where nothing else changes.
fn keeps_spaces(text: &[u8]) -> bool
    ensures { IsTrue result → closed_up (squeezed text.now) ≡ text.now }
{
    if !lacks(text, b"  ") {
        return false;
    }
    if !lacks(text, b" /") {
        return false;
    }
    lacks(text, b" (")
}

fn line_of(alloc: Global, value: &[u8]) -> Result<Bytes, NoMemory>
    ensures { IfOk result (λ bytes. bytes ≡ take LIMIT (cmd_line value.now)) }
{
    let mut line = Line {
        out: Bytes::new(alloc),
        space: false,
    };
    for byte in value {
        line.read(*byte)?;
    }
    let mut out = line.end()?;
    out.truncate(LIMIT);
    Ok(out)
}

/// What is written, and whether a space is read that may follow.
#[derive(Drop)]
struct Line {
    out: Bytes,
    space: bool,
}

impl Line {
    fn read(&mut self, byte: u8) -> Result<(), NoMemory>
        ensures { OnOk result ((rest : List ℕ) → self.new.out ++ to_come self.new.space rest
            ≡ self.old.out ++ to_come self.old.space (byte ∷ rest)) }
    {
        if is_mark(byte) {
            return Ok(());
        }
        if is_blank(byte) {
            self.space = true;
            return Ok(());
        }
        if !self.space {
            self.out.push(lower(byte))?;
            return Ok(());
        }
        self.space = false;
        if closes(byte) {
            self.out.push(lower(byte))?;
            return Ok(());
        }
        self.out.append(&[SPACE, lower(byte)])?;
        Ok(())
    }

    fn end(self) -> Result<Bytes, NoMemory>
        ensures { IfOk result (λ bytes. bytes ≡ self.out ++ to_come self.space []) }
    {
        let Line { mut out, space } = self;
        if !space {
            return Ok(out);
        }
        out.push(SPACE)?;
        Ok(out)
    }
}

fn is_mark(byte: u8) -> bool
    ensures { result ≡ is_mark byte }
{
    matches!(byte, BACKSLASH | QUOTE | SINGLE_QUOTE | CIRCUMFLEX)
}

fn is_blank(byte: u8) -> bool
    ensures { result ≡ is_blank byte }
{
    matches!(
        byte,
        SPACE | COMMA | SEMICOLON | TAB | LINE_FEED | CARRIAGE_RETURN
    )
}

fn closes(byte: u8) -> bool
    ensures { result ≡ closes byte }
{
    matches!(byte, SLASH | OPENING_PARENTHESIS)
}

fn lower(byte: u8) -> u8
    ensures { result ≡ to_ascii_lowercase byte }
{
    byte.to_ascii_lowercase()
}
