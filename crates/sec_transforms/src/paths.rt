ghost use Rattle.std.specs.Prelude.{◌≡◌, ◌==◌, ◌++◌, [], ◌∷◌, List, ℕ, map, take, IfOk, OnOk, OnErr, IsTrue, Bool, cond};
ghost use Rattle.std.specs.Borrow.{Bor};
ghost use Rattle.std.specs.List.{slice_split, join_with_byte};
ghost use Rattle.sec_decoders.specs.declared.pieces.TheConstants.{LIMIT};
ghost use Rattle.sec_transforms.specs.NormalizePath.{after, ends_in_name, is_rooted, tail_of, path};
ghost use Rattle.sec_transforms.specs.Alphabets.{backslash_as_slash};
ghost use Rattle.sec_transforms.specs.declared.characters.TheConstants.{SLASH};

use crate::alphabets::{Slashes, mapped};
use crate::characters::{DOT, SLASH};
use crate::limit::cut;
use memchr::memchr;
use sec_decoders::LIMIT;
use std::alloc::Global;
use waf_plain::{Bytes, NoMemory};

/// `normalizePath`.
pub(crate) fn normalize_path(alloc: Global, value: &[u8]) -> Result<Bytes, NoMemory>
    ensures { IfOk result (λ bytes. bytes ≡ take LIMIT (path value.now)) }
{
    if is_one_name(value) {
        return Ok(cut(Bytes::copy(alloc, value)?));
    }
    of_pieces(alloc, value)
}

/// Whether a value stays: it has no `/`, and is longer than `.`.
fn is_one_name(value: &[u8]) -> bool
    ensures { IsTrue result → path value.now ≡ value.now }
{
    if value.len() < 2 {
        return false;
    }
    match memchr(SLASH, value) {
        None => true,
        Some(_) => false,
    }
}

fn of_pieces(alloc: Global, value: &[u8]) -> Result<Bytes, NoMemory>
    ensures { IfOk result (λ bytes. bytes ≡ take LIMIT (path value.now)) }
{
    let rooted = starts_at_root(value);
    let pieces = pieces_of(alloc, value)?;
    let mut left = Vec::new(alloc);
    let mut dropped = false;
    for piece in pieces.iter() {
        dropped = step(rooted, &mut left, *piece)?;
    }
    let mut out = written(alloc, rooted, left.as_slice(), dropped)?;
    out.truncate(LIMIT);
    Ok(out)
}

/// `normalizePathWin`: a `\` is a `/`.
pub(crate) fn normalize_path_win(alloc: Global, value: &[u8]) -> Result<Bytes, NoMemory>
    ensures { IfOk result (λ bytes. bytes ≡ take LIMIT (path (map backslash_as_slash value.now))) }
{
    let slashed = mapped(alloc, &Slashes, value)?;
    normalize_path(alloc, slashed.as_slice())
}

fn written(alloc: Global, rooted: bool, left: &[&[u8]], dropped: bool) -> Result<Bytes, NoMemory>
    ensures { IfOk result (λ bytes. let kept = map (λ p. p.now) left.now in
        bytes ≡ cond rooted (SLASH ∷ []) [] ++ (join_with_byte SLASH kept ++ tail_of (kept, dropped))) }
{
    let mut out = Bytes::new(alloc);
    out.append(slash_if(rooted))?;
    join(&mut out, left)?;
    out.append(tail(left, dropped))?;
    Ok(out)
}

fn slash_if(wanted: bool) -> &'static [u8]
    ensures { result.now ≡ cond wanted (SLASH ∷ []) [] }
{
    if wanted { b"/" } else { b"" }
}

fn tail(left: &[&[u8]], dropped: bool) -> &'static [u8]
    ensures { result.now ≡ tail_of (map (λ p. p.now) left.now, dropped) }
{
    match left {
        [] => b"",
        _ => slash_if(dropped),
    }
}

fn starts_at_root(value: &[u8]) -> bool
    ensures { result ≡ is_rooted value.now }
{
    matches!(value, [SLASH, ..])
}

fn pieces_of(alloc: Global, value: &[u8]) -> Result<Vec<&[u8]>, NoMemory>
    ensures { IfOk result (λ v. map (λ p. p.now) v.items ≡ slice_split (λ b. b == SLASH) value.now) }
{
    let pieces = value.split(|b| *b == SLASH).collect(alloc)?;
    Ok(pieces)
}

/// Whether the piece is dropped. After an `Err` what is left may have changed.
fn step<'a>(rooted: bool, left: &mut Vec<&'a [u8]>, piece: &'a [u8]) -> Result<bool, NoMemory>
    ensures { IfOk result (λ dropped. (dropped_before : Bool)
        → after rooted (map (λ p. p.now) left.old.items, dropped_before) piece.now
        ≡ (map (λ p. p.now) left.new.items, dropped)) }
{
    match piece {
        [] | [DOT] => Ok(true),
        [DOT, DOT] => {
            if last_is_name(left.as_slice()) {
                left.pop();
                return Ok(true);
            }
            if rooted {
                return Ok(true);
            }
            left.push(piece)?;
            Ok(false)
        }
        _ => {
            left.push(piece)?;
            Ok(false)
        }
    }
}

fn last_is_name(left: &[&[u8]]) -> bool
    ensures { result ≡ ends_in_name (map (λ p. p.now) left.now) }
{
    match left.last() {
        None | Some([DOT, DOT]) => false,
        Some(_) => true,
    }
}

fn join(out: &mut Bytes, left: &[&[u8]]) -> Result<(), NoMemory>
    ensures { OnOk result (out.new ≡ out.old ++ join_with_byte SLASH (map (λ p. p.now) left.now)) }
{
    let Some((first, others)) = left.split_first() else {
        return Ok(());
    };
    out.append(*first)?;
    for piece in others {
        out.push(SLASH)?;
        out.append(*piece)?;
    }
    Ok(())
}
