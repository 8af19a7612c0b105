ghost use Rattle.std.specs.Prelude.{◌≡◌, ◌++◌, ◌∷◌, ◌<◌, OnOk, codes, map, if◌then◌else◌};
ghost use Rattle.std.specs.List.{join_with_byte};
ghost use Rattle.sec_ast.specs.PrintOperators.{argument_text, behind_blank, hex_digit, is_plain, operator_text, phrase_byte, phrase_text};

use crate::operator::{Op, OpKind};
use crate::print_macros::put_macro;
use crate::print_texts::put_joined;
use sec_text::characters::{BACKSLASH, BAR, COMMA, QUOTE, SPACE};
use std::alloc::Global;
use waf_plain::{Bytes, NoMemory};

// A byte is written by its two digits to this base.
const HEX_BASE: u8 = 16;

const HEX_DIGITS: [u8; 16] = *b"0123456789abcdef";

/// Puts an operator as it is written, with its argument.
#[tactic(auto, unfolding(crate::specs::PrintOperators::operator_text))]
pub(crate) fn put_operator(
    alloc: Global,
    negated: bool,
    op: &Op,
    out: &mut Bytes,
) -> Result<(), NoMemory>
    ensures { OnOk result (out.new ≡ out.old ++ operator_text negated op.now) }
{
    let mut argument = Bytes::new(alloc);
    put_argument(op, &mut argument)?;
    out.append(sign(negated))?;
    out.append(op.kind.name())?;
    put_behind_blank(argument.as_slice(), out)
}

fn sign(negated: bool) -> &'static [u8]
    ensures { result.now ≡ (if negated then codes "!@" else codes "@") }
{
    if negated { b"!@" } else { b"@" }
}

fn put_behind_blank(argument: &[u8], out: &mut Bytes) -> Result<(), NoMemory>
    ensures { OnOk result (out.new ≡ out.old ++ behind_blank argument.now) }
{
    if argument.is_empty() {
        return Ok(());
    }
    out.push(SPACE)?;
    out.append(argument)
}

fn put_argument(op: &Op, out: &mut Bytes) -> Result<(), NoMemory>
    ensures { OnOk result (out.new ≡ out.old ++ argument_text op.now.kind op.now.text op.now.words) }
{
    match op.kind {
        OpKind::Pm => put_phrases(op.words.as_slice(), out),
        OpKind::IpMatch | OpKind::ValidateByteRange => put_joined(COMMA, op.words.as_slice(), out),
        _ => put_macro(&op.text, out),
    }
}

fn put_phrases(phrases: &[Bytes], out: &mut Bytes) -> Result<(), NoMemory>
    ensures { OnOk result (out.new ≡ out.old ++ join_with_byte SPACE (map phrase_text phrases.now)) }
{
    let Some((first, others)) = phrases.split_first() else {
        return Ok(());
    };
    put_phrase(first.as_slice(), out)?;
    for phrase in others {
        put_further_phrase(phrase.as_slice(), out)?;
    }
    Ok(())
}

fn put_further_phrase(phrase: &[u8], out: &mut Bytes) -> Result<(), NoMemory>
    ensures { OnOk result (out.new ≡ out.old ++ SPACE ∷ phrase_text phrase.now) }
{
    out.push(SPACE)?;
    put_phrase(phrase, out)
}

fn put_phrase(phrase: &[u8], out: &mut Bytes) -> Result<(), NoMemory>
    ensures { OnOk result (out.new ≡ out.old ++ phrase_text phrase.now) }
{
    for byte in phrase {
        put_phrase_byte(*byte, out)?;
    }
    Ok(())
}

fn put_phrase_byte(byte: u8, out: &mut Bytes) -> Result<(), NoMemory>
    ensures { OnOk result (out.new ≡ out.old ++ phrase_byte byte) }
{
    if is_plain(byte) {
        return out.push(byte);
    }
    let digits = [
        BAR,
        hex_digit(byte / HEX_BASE),
        hex_digit(byte % HEX_BASE),
        BAR,
    ];
    out.append(&digits)
}

fn is_plain(byte: u8) -> bool
    ensures { result ≡ is_plain byte }
{
    byte.is_ascii_graphic() && byte != QUOTE && byte != BAR && byte != BACKSLASH
}

fn hex_digit(n: u8) -> u8
    requires { n < HEX_BASE }
    ensures { result ≡ hex_digit n }
{
    HEX_DIGITS[n as usize]
}
