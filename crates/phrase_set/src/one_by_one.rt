//! Phrases tried one by one.
ghost use Rattle.std.specs.Prelude.{◌≡◌, ◌+◌, List, [], ℕ, Some, get_or, length};
ghost use Rattle.memchr.specs.Find.{FindsNeedle};
ghost use Rattle.phrase_set.specs.Phrases.{IsFirstEnd, IsEarlier, place_of, span_of, earlier, better, first_end};

use memchr::memmem;
use waf_plain::Bytes;

/// The first place of a needle in a text. The empty needle stands at 0.
pub fn place(text: &[u8], needle: &[u8]) -> Option<usize>
    ensures finds { FindsNeedle text.now needle.now 0 result }
    ensures value { result ≡ place_of text.now needle.now }
{
    memmem::find(text, needle)
}

/// The occurrence of a phrase that ends first, the longest among those, phrases tried one by one.
pub(crate) fn first_end(phrases: &[Bytes], text: &[u8]) -> Option<(usize, usize)>
    ensures first { IsFirstEnd (length phrases.now) phrases.now text.now result }
    ensures value { result ≡ first_end phrases.now text.now }
{
    let mut best = None;
    for phrase in phrases {
        best = best_with(best, text, phrase.as_slice());
    }
    best
}

/// The best occurrence so far, with one phrase more.
fn best_with(best: Option<(usize, usize)>, text: &[u8], phrase: &[u8]) -> Option<(usize, usize)>
    ensures first { (n : ℕ) (phrases : List (List ℕ)) → IsFirstEnd n phrases text.now best
        → phrase.now ≡ get_or phrases n [] → IsFirstEnd (n + 1) phrases text.now result }
    ensures value { result ≡ better best (span_of text.now phrase.now) }
{
    match place(text, phrase) {
        None => best,
        Some(start) => Some(earlier_of(best, (start, start + phrase.len()))),
    }
}

/// The one that ends first, or the longer one.
#[tactic(auto, unfolding(crate::specs::Phrases::earlier))]
pub(crate) fn earlier_of(best: Option<(usize, usize)>, found: (usize, usize)) -> (usize, usize)
    ensures order { IsEarlier best found result }
    ensures value { better best (Some found) ≡ Some result }
{
    let Some(best) = best else {
        return found;
    };
    if best.1 < found.1 {
        return best;
    }
    if best.1 == found.1 && best.0 <= found.0 {
        return best;
    }
    found
}
