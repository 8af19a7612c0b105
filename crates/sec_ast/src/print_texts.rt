ghost use Rattle.std.specs.Prelude.{◌≡◌, ◌++◌, IfOk, OnOk, decimal, map};
ghost use Rattle.std.specs.List.{join_with_byte};
ghost use Rattle.sec_ast.specs.PrintTexts.{escaped, in_quotes, line_of, marked, spread};

use itoa::Buffer;
use sec_text::characters::{BACKSLASH, LINE_FEED, QUOTE, SPACE};
use std::alloc::Global;
use waf_plain::{Bytes, NoMemory};

/// Puts the text with `\` before each quote.
pub(crate) fn put_escaped(quote: u8, text: &[u8], out: &mut Bytes) -> Result<(), NoMemory>
    ensures { OnOk result (out.new ≡ out.old ++ escaped quote text.now) }
{
    for byte in text {
        put_marked(quote, *byte, out)?;
    }
    Ok(())
}

fn put_marked(quote: u8, byte: u8, out: &mut Bytes) -> Result<(), NoMemory>
    ensures { OnOk result (out.new ≡ out.old ++ marked quote byte) }
{
    if byte == quote {
        out.push(BACKSLASH)?;
        return out.push(byte);
    }
    out.push(byte)
}

pub(crate) fn put_in_quotes(quote: u8, text: &[u8], out: &mut Bytes) -> Result<(), NoMemory>
    ensures { OnOk result (out.new ≡ out.old ++ in_quotes quote text.now) }
{
    out.push(quote)?;
    put_escaped(quote, text, out)?;
    out.push(quote)
}

/// One text behind the other.
pub(crate) fn behind(alloc: Global, label: &[u8], text: &[u8]) -> Result<Bytes, NoMemory>
    ensures { IfOk result (λ bytes. bytes ≡ label.now ++ text.now) }
{
    let mut out = Bytes::copy(alloc, label)?;
    out.append(text)?;
    Ok(out)
}

pub(crate) fn put_decimal(number: u64, out: &mut Bytes) -> Result<(), NoMemory>
    ensures { OnOk result (out.new ≡ out.old ++ decimal number) }
{
    let mut buffer = Buffer::new();
    out.append(buffer.format(number).as_bytes())
}

/// Puts the pieces, with the byte between each two.
pub(crate) fn put_joined(byte: u8, pieces: &[Bytes], out: &mut Bytes) -> Result<(), NoMemory>
    ensures { OnOk result (out.new ≡ out.old ++ join_with_byte byte pieces.now) }
{
    let Some((first, others)) = pieces.split_first() else {
        return Ok(());
    };
    out.append(first.as_slice())?;
    for piece in others {
        out.push(byte)?;
        out.append(piece.as_slice())?;
    }
    Ok(())
}

/// Puts a directive's line: its name and its words in quotes.
#[tactic(auto, unfolding(crate::specs::PrintTexts::line_of))]
pub(crate) fn put_line(name: &[u8], words: &[&[u8]], out: &mut Bytes) -> Result<(), NoMemory>
    ensures { OnOk result (out.new ≡ out.old ++ line_of name.now (map (λ word. word.now) words.now)) }
{
    out.append(name)?;
    for word in words {
        put_word(*word, out)?;
    }
    out.push(LINE_FEED)
}

fn put_word(word: &[u8], out: &mut Bytes) -> Result<(), NoMemory>
    ensures { OnOk result (out.new ≡ out.old ++ spread word.now) }
{
    out.push(SPACE)?;
    put_in_quotes(QUOTE, word, out)
}
