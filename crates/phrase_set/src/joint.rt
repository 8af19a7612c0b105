//! Phrases in one pass.
ghost use Rattle.std.specs.Prelude.{length};
ghost use Rattle.phrase_set.specs.Phrases.{IsFirstEnd};
ghost use Rattle.phrase_set.specs.Search.{NoneEmpty};

use regex_literal::{Bounded, Prefilter};

/// The occurrence that ends first, the longest among those. Each that is found leaves for the search
/// what stands before its last byte, in which another would end earlier.
pub(crate) fn first_end_of(needles: &Prefilter, text: &[u8]) -> Option<(usize, usize)>
    requires { NoneEmpty needles.now }
    ensures { IsFirstEnd (length needles.now) needles.now text.now result }
{
    let mut best = None;
    let mut front = text;
    let mut from = 0;
    loop {
        match needles.find_bounded(front, from) {
            Bounded::Missing => return best,
            Bounded::Tired(at) => from = at,
            Bounded::Found(at, which) => {
                let end = at + needles.needle_len(which);
                best = Some((at, end));
                front = front.split_at(end - 1).0;
                from = at;
            },
        }
    }
}
