ghost use Rattle.std.specs.Prelude.{◌≡◌, take, IfOk};
ghost use Rattle.sec_collect.specs.Expansion.{expansion};
ghost use Rattle.sec_meaning.specs.Text.{text_of};
ghost use Rattle.sec_transforms.specs.Apply.{chained};

use sec_ast::{Macro, Part, Transform};
use sec_collect::{EXPANSION_LIMIT, Vars, expand};
use sec_meaning::Text;
use sec_transforms::apply_chain;
use std::alloc::Global;
use waf_plain::{NoMemory, Seq};

/// A macro with values in the places of its references. One that is nothing but text is borrowed.
pub(crate) fn expanded<'a>(
    alloc: Global,
    vars: &Vars,
    text: &'a Macro,
) -> Result<Text<'a>, NoMemory>
    ensures { IfOk result (λ t. text_of t ≡ expansion vars.now text.entry.now) }
{
    match text.as_slice() {
        [] => Ok(Text::Borrowed(&[])),
        [Part::Text(bytes)] => Ok(Text::Borrowed(first_bytes(bytes.as_slice(), EXPANSION_LIMIT))),
        _ => Ok(Text::Owned(expand(alloc, vars, text)?)),
    }
}

fn first_bytes(text: &[u8], count: usize) -> &[u8]
    ensures { result.now ≡ take count text.now }
{
    if count < text.len() {
        return text.split_at(count).0;
    }
    text
}

/// A value after a chain of transformations. The empty chain borrows the value itself.
pub(crate) fn chained<'a>(
    alloc: Global,
    transforms: &Seq<Transform>,
    value: &'a [u8],
) -> Result<Text<'a>, NoMemory>
    ensures { IfOk result (λ t. text_of t ≡ chained transforms.now value.entry.now) }
{
    if transforms.is_empty() {
        return Ok(Text::Borrowed(value));
    }
    Ok(Text::Owned(apply_chain(alloc, transforms, value)?))
}
