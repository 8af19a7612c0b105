ghost use Rattle.std.specs.Prelude.{◌≡◌, map, IfOk};
ghost use Rattle.sec_ops.specs.Phrases.{folded};

use phrase_set::PhraseSet;
use std::alloc::Global;
use waf_plain::{Bytes, NoMemory, Seq};

/// The letters in lower case.
pub(crate) fn fold(alloc: Global, text: &[u8]) -> Result<Bytes, NoMemory>
    ensures { IfOk result (λ bytes. bytes ≡ folded text.now) }
{
    Ok(Bytes::from_vec(text.to_ascii_lowercase(alloc)?))
}

/// The phrases with their letters in lower case.
fn fold_all(alloc: Global, phrases: &Seq<Bytes>) -> Result<Seq<Bytes>, NoMemory>
    ensures { IfOk result (λ all. all ≡ map folded phrases.now) }
{
    let mut all = Seq::new(alloc);
    for phrase in phrases.as_slice() {
        all.push(fold(alloc, phrase.as_slice())?)?;
    }
    Ok(all)
}

/// The set of the phrases in lower case.
pub(crate) fn set_of(alloc: Global, words: &Seq<Bytes>) -> Result<PhraseSet, NoMemory>
    ensures { IfOk result (λ set. set ≡ map folded words.now) }
{
    let phrases = fold_all(alloc, words)?;
    PhraseSet::build(alloc, &phrases)
}
