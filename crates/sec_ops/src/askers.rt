//! Operators that one owner asks of value after value: what a search writes to is made once.
ghost use Rattle.std.specs.Prelude.{◌≡◌, IfOk};
ghost use Rattle.sec_ops.specs.Askers.{IsSearchOf};
ghost use Rattle.sec_ops.specs.Hits.{groups_of, hit};

use crate::built::{Built, Hit, holds};
use crate::searches::Search;
use std::marker::Model;
use waf_plain::NoMemory;

/// An operator that one owner asks of value after value. What a search needs is made at the first
/// value that a pattern could match in, and kept; it grows with the values, up to the budget that
/// `regex` has for a matcher. Contracts see it as the operator.
#[derive(Drop)]
pub struct Asker<'b> {
    built: &'b Built,
    search: Option<Box<Search<'b>>>,
}

impl<'b> Model for Asker<'b> {
    ghost use Rattle.sec_ast.specs.declared.operator.Op.{Op};
    ghost use Rattle.sec_ops.specs.Askers.{IsSearchOf};

    ghost Value = { Op };

    ghost view = { λ s. s.built.now };

    ghost invariant = { λ s. IsSearchOf s.search s.built.now };
}

impl<'b> Asker<'b> {
    /// An asker of a built operator. It takes no memory yet.
    pub fn new(built: &'b Built) -> Asker<'b>
        ensures { result ≡ built.now }
    {
        Asker {
            built,
            search: None,
        }
    }

    /// What the operator finds in a value, as `holds` says.
    pub fn ask(&mut self, argument: &[u8], value: &[u8]) -> Result<Hit, NoMemory>
        ensures found { IfOk result (λ found. groups_of found ≡ hit self.old argument.now value.now) }
        ensures same { self.new ≡ self.old }
    {
        let built: &'b Built = self.built;
        if self.search.is_none() {
            if !built.may_hit(value)? {
                return Ok(Hit::No);
            }
            self.search = search_of(built)?;
        }
        match &mut self.search {
            None => holds(built, argument, value),
            Some(search) => match search.texts(built.alloc(), value)? {
                None => Ok(Hit::No),
                Some(groups) => Ok(Hit::Yes { groups }),
            },
        }
    }
}

// What the searches of a pattern need, where the operator is one.
fn search_of(built: &Built) -> Result<Option<Box<Search<'_>>>, NoMemory>
    ensures { IfOk result (λ search. IsSearchOf search built.now) }
{
    let Some(pattern) = built.pattern() else {
        return Ok(None);
    };
    let search = Search::new(built.alloc(), pattern)?;
    Ok(Some(Box::new(built.alloc(), search)?))
}
