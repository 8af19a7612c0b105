ghost use Rattle.std.specs.Prelude.{◌≡◌, ◌++◌, ◌+◌, ◌∷◌, [], take, IfOk, OnOk};
ghost use Rattle.sec_collect.specs.Captures.{AreCaptured, captured_rows, numbered};
ghost use Rattle.sec_collect.specs.declared.captures.TheConstants.{KEPT_GROUPS};

use crate::request::digits;
use std::alloc::{AllocError, Global};
use std::marker::Model;
use waf_plain::{Bytes, NoMemory, Seq};
use web_parts::NameValue;

// How many groups of a match are kept.
const KEPT_GROUPS: usize = 10;

/// The texts that were captured, as rows named by the numbers of their groups. They are those of one
/// match, or none.
#[derive(Debug, Drop)]
pub struct Captures {
    rows: Seq<NameValue>,
}

impl Model for Captures {
    ghost use Rattle.std.specs.Prelude.{List};
    ghost use Rattle.web_parts.specs.declared.row.NameValue.{NameValue};
    ghost use Rattle.sec_collect.specs.Captures.{AreCaptured};

    ghost Value = { List NameValue };

    ghost view = { λ c. c.rows };

    ghost invariant = { λ c. AreCaptured c.rows };
}

impl Captures {
    /// No texts. It takes no memory.
    pub fn new(alloc: Global) -> Captures
        ensures { result ≡ [] }
    {
        Captures {
            rows: Seq::new(alloc),
        }
    }

    /// The texts as rows, in order.
    pub fn as_slice(&self) -> &[NameValue]
        ensures rows { result.now ≡ self.now }
        ensures captured { AreCaptured self.now }
    {
        self.rows.as_slice()
    }
}

impl Clone for Captures {
    ghost is_clone = { λ a b. b ≡ a };

    fn clone(&self) -> Result<Captures, AllocError> {
        let rows = self.rows.clone()?;
        Ok(Captures { rows })
    }
}

/// The texts of the first ten groups, named by their numbers; a group that took no part has no row.
pub fn captured_rows(alloc: Global, groups: &[Option<Bytes>]) -> Result<Captures, NoMemory>
    ensures { IfOk result (λ captures. captures ≡ captured_rows groups.now) }
{
    let rows = numbered(alloc, first_groups(groups))?;
    Ok(Captures { rows })
}

fn first_groups(groups: &[Option<Bytes>]) -> &[Option<Bytes>]
    ensures { result.now ≡ take KEPT_GROUPS groups.now }
{
    if groups.len() > KEPT_GROUPS {
        return groups.split_at(KEPT_GROUPS).0;
    }
    groups
}

fn numbered(alloc: Global, texts: &[Option<Bytes>]) -> Result<Seq<NameValue>, NoMemory>
    ensures { IfOk result (λ rows. rows ≡ numbered 0 texts.now) }
{
    let mut rows = Seq::new(alloc);
    for (number, text) in texts.iter().enumerate() {
        add_text(alloc, &mut rows, number, text)?;
    }
    Ok(rows)
}

fn add_text(
    alloc: Global,
    rows: &mut Seq<NameValue>,
    number: usize,
    text: &Option<Bytes>,
) -> Result<(), NoMemory>
    ensures { OnOk result (rows.new ≡ rows.old ++ numbered number (text.now ∷ [])) }
{
    match text {
        Some(text) => {
            let name = digits(alloc, number as u64)?;
            let value = text.clone()?;
            rows.push(NameValue { name, value })
        }
        None => Ok(()),
    }
}
