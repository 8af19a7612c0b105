//! Parts of a set, of phrases that stand one after the other in its list.
ghost use Rattle.std.specs.Prelude.{◌≡◌, ◌<◌, ◌≤◌, false, length, map, take, IfOk, IfSome};
ghost use Rattle.phrase_set.specs.Phrases.{IsFirstEnd};
ghost use Rattle.phrase_set.specs.Search.{IsSound, NoneEmpty, phrases_of};

use crate::joint::first_end_of;
use crate::one_by_one::first_end;
use regex_literal::Prefilter;
use std::alloc::Global;
use waf_plain::{Bytes, NoMemory, Seq};

/// Phrases that are looked for together.
#[derive(Drop)]
pub(crate) enum Part {
    /// One by one: an empty phrase.
    Each(Seq<Bytes>),
    /// In one pass.
    Joint(Prefilter),
}

/// Where a phrase of the part ends first, the longest among those.
pub(crate) fn first_in(part: &Part, value: &[u8]) -> Option<(usize, usize)>
    requires { IsSound part.now }
    ensures { IsFirstEnd (length (phrases_of part.now)) (phrases_of part.now) value.now result }
{
    match part {
        Part::Each(phrases) => first_end(phrases.as_slice(), value),
        Part::Joint(needles) => first_end_of(needles, value),
    }
}

/// A part of the first phrases of a list, and how many: at most so many, and half of them as often as
/// the tables of one pass do not hold them.
pub(crate) fn first_part(
    alloc: Global,
    phrases: &[Bytes],
    most: usize,
) -> Result<(Part, usize), NoMemory>
    requires { 0 < length phrases.now }
    ensures part { IfOk result (λ p. phrases_of p.0 ≡ take p.1 phrases.now) }
    ensures sound { IfOk result (λ p. IsSound p.0) }
    ensures some { IfOk result (λ p. 0 < p.1) }
    ensures within { IfOk result (λ p. p.1 ≤ length phrases.now) }
{
    let mut count = most.min(phrases.len());
    while count > 0 {
        if let Some(needles) = joint(alloc, phrases.split_at(count).0)? {
            return Ok((Part::Joint(needles), count));
        }
        count /= 2;
    }
    let first = copies(alloc, phrases.split_at(1).0)?;
    Ok((Part::Each(first), 1))
}

/// The search for all of them in one pass.
fn joint(alloc: Global, phrases: &[Bytes]) -> Result<Option<Prefilter>, NoMemory>
    ensures needles { IfOk result (λ o. IfSome o (λ p. p ≡ phrases.now)) }
    ensures sound { IfOk result (λ o. IfSome o (λ p. NoneEmpty p)) }
{
    if has_empty(phrases) {
        return Ok(None);
    }
    match Prefilter::new(alloc, needles(alloc, phrases)?)? {
        Some(needles) => Ok(Some(needles)),
        None => Ok(None),
    }
}

fn copies(alloc: Global, phrases: &[Bytes]) -> Result<Seq<Bytes>, NoMemory>
    ensures { IfOk result (λ all. all ≡ phrases.now) }
{
    let mut all = Seq::new(alloc);
    for phrase in phrases {
        all.push(Bytes::copy(alloc, phrase.as_slice())?)?;
    }
    Ok(all)
}

fn needles(alloc: Global, phrases: &[Bytes]) -> Result<Vec<Vec<u8>>, NoMemory>
    ensures { IfOk result (λ v. map (λ needle. needle.items) v.items ≡ phrases.now) }
{
    let mut all = Vec::new(alloc);
    for phrase in phrases {
        all.push(Vec::from_slice(alloc, phrase.as_slice())?)?;
    }
    Ok(all)
}

fn has_empty(phrases: &[Bytes]) -> bool
    ensures { result ≡ false → NoneEmpty phrases.now }
{
    for phrase in phrases {
        if phrase.is_empty() {
            return true;
        }
    }
    false
}
