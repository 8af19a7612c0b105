ghost use Rattle.std.specs.Prelude.{◌≡◌, List, ℕ, length, IfOk};
ghost use Rattle.phrase_set.specs.Phrases.{IsFirstEnd, better, first_end};

use crate::one_by_one::earlier_of;
use crate::part::{Part, first_in, first_part};
use std::alloc::Global;
use std::marker::Model;
use waf_plain::{Bytes, NoMemory, Seq};

/// Phrases that are looked for together. A search takes no memory. Contracts see it as their list.
#[derive(Drop)]
pub struct PhraseSet {
    parts: Vec<Part>,
}

impl Model for PhraseSet {
    ghost use Rattle.std.specs.Prelude.{List, ℕ};
    ghost use Rattle.std.specs.List.{All, flat_map};
    ghost use Rattle.phrase_set.specs.Search.{IsSound, phrases_of};

    ghost Value = { List (List ℕ) };

    ghost view = { λ s. flat_map phrases_of s.parts.items };

    ghost invariant = { λ s. All IsSound s.parts.items };
}

impl PhraseSet {
    /// The set of some phrases. They are one part where the tables of one pass hold them all: they do
    /// not where more than 64 begin alike.
    pub fn build(alloc: Global, phrases: &Seq<Bytes>) -> Result<PhraseSet, NoMemory>
        ensures { IfOk result (λ set. set ≡ phrases.now) }
    {
        let mut parts = Vec::new(alloc);
        let mut rest = phrases.as_slice();
        let mut most = rest.len();
        while !rest.is_empty() {
            let (part, count) = first_part(alloc, rest, most)?;
            parts.push(part)?;
            rest = rest.split_at(count).1;
            most = count.saturating_mul(2);
        }
        Ok(PhraseSet { parts })
    }

    /// Start and end of the occurrence that ends first, the longest among those.
    #[tactic(auto, using(crate::proofs::PhraseLaw::is_first_end))]
    pub fn find(&self, value: &[u8]) -> Option<(u64, u64)>
        ensures first { IsFirstEnd (length self.now) self.now value.now result }
        ensures value { result ≡ first_end self.now value.now }
    {
        let (start, end) = self.first(value)?;
        Some((start as u64, end as u64))
    }

    fn first(&self, value: &[u8]) -> Option<(usize, usize)>
        ensures { IsFirstEnd (length self.now) self.now value.now result }
    {
        let mut best = None;
        for part in self.parts.as_slice() {
            best = sooner(best, first_in(part, value));
        }
        best
    }
}

fn sooner(best: Option<(usize, usize)>, found: Option<(usize, usize)>) -> Option<(usize, usize)>
    ensures { result ≡ better best found }
{
    match found {
        None => best,
        Some(found) => Some(earlier_of(best, found)),
    }
}
