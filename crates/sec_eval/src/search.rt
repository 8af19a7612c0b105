ghost use Rattle.std.specs.Prelude.{◌≡◌, ◌∷◌, [], IfOk, List, ℕ};
ghost use Rattle.sec_ast.specs.declared.transform.Transform.{Transform as TheTransform};
ghost use Rattle.sec_eval.specs.Search.{IsMissed, LeadsTo, found_by, found_then};
ghost use Rattle.sec_meaning.specs.Text.{text_of};
ghost use Rattle.sec_meaning.specs.Values.{changes, first_hit, tested};
ghost use Rattle.sec_ops.specs.Hits.{hit};
ghost use Rattle.sec_transforms.specs.Apply.{chained};

use crate::askers::LinkAsker;
use crate::text::chained;
use sec_ast::{Link, Transform};
use sec_meaning::Text;
use sec_ops::Hit;
use sec_transforms::apply;
use std::alloc::Global;
use waf_plain::{Bytes, NoMemory, Seq};

/// What came of the tests of a value.
#[derive(Debug, Drop)]
pub(crate) enum Search<'a> {
    /// The first tested value in which the operator found something, and the texts of the groups.
    Found {
        value: Text<'a>,
        groups: Seq<Option<Bytes>>,
    },
    /// It found nothing; the value after the transformations.
    Missed(Text<'a>),
}

/// What the operator of a link, with its argument expanded, finds in the values that the link tests of
/// one. Only what transformations make is copied.
pub(crate) fn find_hit<'a>(
    alloc: Global,
    link: &Link,
    asker: &mut LinkAsker<'_>,
    argument: &[u8],
    value: &'a [u8],
) -> Result<Search<'a>, NoMemory>
    ensures found { IfOk result
        (λ s. found_by s ≡ first_hit (hit asker.old.op argument.now) (tested link.now value.entry.now)) }
    ensures missed { IfOk result (λ s. IsMissed (chained link.now.transforms value.entry.now) s) }
    ensures same { asker.new ≡ asker.old }
{
    if link.multi {
        return search_each(alloc, &link.transforms, asker, argument, value);
    }
    let value = chained(alloc, &link.transforms, value)?;
    search_in(asker, argument, value)
}

// Tests one value.
fn search_in<'a>(
    asker: &mut LinkAsker<'_>,
    argument: &[u8],
    value: Text<'a>,
) -> Result<Search<'a>, NoMemory>
    ensures found { IfOk result (λ s. found_by s ≡ first_hit (hit asker.old.op argument.now) (text_of value.entry ∷ [])) }
    ensures missed { IfOk result (λ s. IsMissed (text_of value.entry) s) }
    ensures same { asker.new ≡ asker.old }
{
    match asker.ask(argument, value.as_slice())? {
        Hit::No => Ok(Search::Missed(value)),
        Hit::Yes { groups } => Ok(Search::Found { value, groups }),
    }
}

// Tests a value, and what each transformation changes.
fn search_each<'a>(
    alloc: Global,
    transforms: &Seq<Transform>,
    asker: &mut LinkAsker<'_>,
    argument: &[u8],
    value: &'a [u8],
) -> Result<Search<'a>, NoMemory>
    ensures found { IfOk result (λ s. found_by s
        ≡ first_hit (hit asker.old.op argument.now) (value.entry.now ∷ changes transforms.now value.entry.now)) }
    ensures missed { IfOk result (λ s. IsMissed (chained transforms.now value.entry.now) s) }
    ensures same { asker.new ≡ asker.old }
{
    let mut search = search_in(asker, argument, Text::Borrowed(value))?;
    for transform in transforms.as_slice() {
        search = search_on(alloc, *transform, asker, argument, search)?;
    }
    Ok(search)
}

// Tests what a transformation makes of a value in which nothing was found, where it changes it.
fn search_on<'a>(
    alloc: Global,
    transform: Transform,
    asker: &mut LinkAsker<'_>,
    argument: &[u8],
    search: Search<'a>,
) -> Result<Search<'a>, NoMemory>
    ensures found { IfOk result (λ s. (left : List TheTransform)
        → found_then (hit asker.old.op argument.now) left s
        ≡ found_then (hit asker.old.op argument.now) (transform ∷ left) search.entry) }
    ensures missed { IfOk result (λ s. (left : List TheTransform) (last : List ℕ)
        → LeadsTo last (transform ∷ left) search.entry → LeadsTo last left s) }
    ensures same { asker.new ≡ asker.old }
{
    match search {
        Search::Found { value, groups } => Ok(Search::Found { value, groups }),
        Search::Missed(value) => {
            let next = apply(alloc, transform, value.as_slice())?;
            if next.as_slice() == value.as_slice() {
                return Ok(Search::Missed(value));
            }
            search_in(asker, argument, Text::Owned(next))
        }
    }
}
