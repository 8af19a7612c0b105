ghost use Rattle.std.specs.Prelude.{◌≡◌, ◌∷◌, [], MatchOption};
ghost use Rattle.sec_collect.specs.RowList.{row_list};
ghost use Rattle.sec_collect.specs.Row.{optional, row};
ghost use Rattle.std.specs.Option.{option_map};

use waf_plain::Bytes;
use web_parts::NameValue;

/// The rows of a variable, in order, borrowed from what they were made from.
#[derive(Clone, Copy, Debug)]
pub enum Rows<'a> {
    Nothing,
    /// One row without a name, and with this value.
    One(&'a [u8]),
    /// The rows of the first list, and then those of the second.
    Pairs(&'a [NameValue], &'a [NameValue]),
    /// For each of the rows of the first list, and then of the second, one that has its name, as its
    /// value too.
    Names(&'a [NameValue], &'a [NameValue]),
}

impl<'a> Rows<'a> {
    /// The first row, by name and value, and the rows after it; `None` where there is no row.
    pub fn split_first(self) -> Option<(&'a [u8], &'a [u8], Rows<'a>)>
        ensures { MatchOption result (row_list self.entry ≡ [])
            (λ first. row_list self.entry ≡ row first.0.now first.1.now ∷ row_list first.2) }
    {
        match self {
            Rows::Nothing => None,
            Rows::One(value) => Some((&[], value, Rows::Nothing)),
            Rows::Pairs(front, rest) => first_pair(front, rest),
            Rows::Names(front, rest) => first_name(front, rest),
        }
    }
}

fn first_pair<'a>(
    front: &'a [NameValue],
    rest: &'a [NameValue],
) -> Option<(&'a [u8], &'a [u8], Rows<'a>)>
    ensures { MatchOption result (row_list (Rows.Pairs front.entry rest.entry) ≡ [])
        (λ first. row_list (Rows.Pairs front.entry rest.entry) ≡ row first.0.now first.1.now ∷ row_list first.2) }
{
    if let Some((first, following)) = front.split_first() {
        return Some((
            first.name.as_slice(),
            first.value.as_slice(),
            Rows::Pairs(following, rest),
        ));
    }
    let (first, following) = rest.split_first()?;
    Some((
        first.name.as_slice(),
        first.value.as_slice(),
        Rows::Pairs(&[], following),
    ))
}

fn first_name<'a>(
    front: &'a [NameValue],
    rest: &'a [NameValue],
) -> Option<(&'a [u8], &'a [u8], Rows<'a>)>
    ensures { MatchOption result (row_list (Rows.Names front.entry rest.entry) ≡ [])
        (λ first. row_list (Rows.Names front.entry rest.entry) ≡ row first.0.now first.1.now ∷ row_list first.2) }
{
    if let Some((first, following)) = front.split_first() {
        return Some((
            first.name.as_slice(),
            first.name.as_slice(),
            Rows::Names(following, rest),
        ));
    }
    let (first, following) = rest.split_first()?;
    Some((
        first.name.as_slice(),
        first.name.as_slice(),
        Rows::Names(&[], following),
    ))
}

/// One row without a name where there is a value, and else none.
pub(crate) fn optional(value: &Option<Bytes>) -> Rows<'_>
    ensures { row_list result ≡ optional value.now }
{
    match value {
        Some(value) => Rows::One(value.as_slice()),
        None => Rows::Nothing,
    }
}
