ghost use Rattle.std.specs.Prelude.{◌≡◌, ◌≤◌, ◌<◌, length, IfOk, IfSome, option_copied};
ghost use Rattle.sec_text.specs.Quotes.{quoted};
ghost use Rattle.sec_parts.specs.Results.{Gives};
ghost use Rattle.sec_parts.specs.Pieces.{closed, ended, piece_at, plain, valued};

use crate::faults::{Refusal, bad_word, open_quote};
use crate::texts::{
    after_first, count_to, count_to_either, has_open_end, is_all_blank, piece_of, trim_back,
    trim_blanks, trim_front,
};
use sec_text::characters::{COLON, COMMA, SINGLE_QUOTE};
use sec_text::read_quoted;
use std::alloc::Global;
use waf_plain::Bytes;

// A piece of a list of actions: its name, its value, and all of it without blanks around it.
#[derive(Drop)]
pub struct Piece {
    pub name: Bytes,
    pub value: Option<Bytes>,
    pub text: Bytes,
}

fn end_piece<'a>(
    alloc: Global,
    text: &'a [u8],
    name: &[u8],
    value: Option<Bytes>,
    rest: &'a [u8],
) -> Result<(Piece, Option<&'a [u8]>), Refusal>
    requires { length rest.now ≤ length text.now }
    ensures piece { Gives (λ x. (x.0, option_copied x.1)) result (ended text.now name.now value rest.now) }
    ensures shorter { IfOk result (λ x. IfSome x.1 (λ after. length after.now < length text.now)) }
{
    let piece = Piece {
        name: Bytes::copy(alloc, trim_blanks(name))?,
        value,
        text: Bytes::copy(alloc, piece_of(text, rest))?,
    };
    Ok((piece, after_first(rest)))
}

// Behind a closing quote come blanks and then a comma or the end.
fn read_closed<'a>(
    alloc: Global,
    text: &'a [u8],
    name: &[u8],
    here: &'a [u8],
) -> Result<(Piece, Option<&'a [u8]>), Refusal>
    requires { length here.now ≤ length text.now }
    ensures piece { Gives (λ x. (x.0, option_copied x.1)) result
        (closed text.now name.now (quoted SINGLE_QUOTE here.now)) }
    ensures shorter { IfOk result (λ x. IfSome x.1 (λ after. length after.now < length text.now)) }
{
    let Some((value, after)) = read_quoted(alloc, SINGLE_QUOTE, here)? else {
        return Err(open_quote(alloc, trim_blanks(text)));
    };
    let (gap, rest) = after.split_at(count_to(after, COMMA));
    if is_all_blank(gap) {
        end_piece(alloc, text, name, Some(value), rest)
    } else {
        Err(bad_word(alloc, piece_of(text, rest)))
    }
}

fn read_plain<'a>(
    alloc: Global,
    text: &'a [u8],
    name: &[u8],
    here: &'a [u8],
) -> Result<(Piece, Option<&'a [u8]>), Refusal>
    requires { length here.now ≤ length text.now }
    ensures piece { Gives (λ x. (x.0, option_copied x.1)) result (plain text.now name.now here.now) }
    ensures shorter { IfOk result (λ x. IfSome x.1 (λ after. length after.now < length text.now)) }
{
    let (value, rest) = here.split_at(count_to(here, COMMA));
    let value = trim_back(value);
    if has_open_end(value) {
        return Err(bad_word(alloc, piece_of(text, rest)));
    }
    end_piece(alloc, text, name, Some(Bytes::copy(alloc, value)?), rest)
}

fn read_valued<'a>(
    alloc: Global,
    text: &'a [u8],
    name: &[u8],
    here: &'a [u8],
) -> Result<(Piece, Option<&'a [u8]>), Refusal>
    requires { length here.now ≤ length text.now }
    ensures piece { Gives (λ x. (x.0, option_copied x.1)) result (valued text.now name.now here.now) }
    ensures shorter { IfOk result (λ x. IfSome x.1 (λ after. length after.now < length text.now)) }
{
    match here {
        [SINGLE_QUOTE, rest @ ..] => read_closed(alloc, text, name, rest),
        _ => read_plain(alloc, text, name, here),
    }
}

// The piece that a text begins with, and what stands behind its comma.
#[tactic(auto, unfolding(crate::specs::Pieces::piece_at))]
pub fn read_piece(alloc: Global, text: &[u8]) -> Result<(Piece, Option<&[u8]>), Refusal>
    ensures piece { Gives (λ x. (x.0, option_copied x.1)) result (piece_at text.now) }
    ensures shorter { IfOk result (λ x. IfSome x.1 (λ after. length after.now < length text.now)) }
{
    let (name, here) = text.split_at(count_to_either(text, COMMA, COLON));
    match here {
        [COLON, rest @ ..] => read_valued(alloc, text, name, trim_front(rest)),
        _ => end_piece(alloc, text, name, None, here),
    }
}
