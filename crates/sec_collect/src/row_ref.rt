ghost use Rattle.std.specs.Prelude.{◌≡◌, IfOk};
ghost use Rattle.sec_collect.specs.Selection.{count_row, full_name, selector_text, value_row};

use crate::marks::{AMPERSAND, COLON};
use crate::request::digits;
use sec_ast::{Select, Target, Var};
use std::alloc::Global;
use waf_plain::{Bytes, NoMemory};

/// A value that a rule looks at: a row of a variable, or, where `counted`, how many rows of it there
/// are. `name` is the row's, or the selector of the target that counts.
#[derive(Debug, PartialEq, Drop)]
pub struct RowRef {
    pub var: Var,
    pub name: Bytes,
    pub value: Bytes,
    pub counted: bool,
}

impl RowRef {
    /// A copy of a row of a variable.
    pub fn of_row(alloc: Global, var: Var, name: &[u8], value: &[u8]) -> Result<RowRef, NoMemory>
        ensures { IfOk result (λ r. r ≡ value_row var (record { name = name.now; value = value.now })) }
    {
        let name = Bytes::copy(alloc, name)?;
        let value = Bytes::copy(alloc, value)?;
        Ok(RowRef {
            var,
            name,
            value,
            counted: false,
        })
    }

    /// What a target gives that counts so many rows.
    pub fn of_count(alloc: Global, target: &Target, count: u64) -> Result<RowRef, NoMemory>
        ensures { IfOk result (λ r. r ≡ count_row target.now count) }
    {
        let name = Bytes::copy(alloc, selector_text(&target.select))?;
        let value = digits(alloc, count)?;
        Ok(RowRef {
            var: target.var,
            name,
            value,
            counted: true,
        })
    }

    /// The variable, after `&` where it is counted, and, where the name is not empty, a colon and
    /// the name.
    pub fn full_name(&self, alloc: Global) -> Result<Bytes, NoMemory>
        ensures { IfOk result (λ text. text ≡ full_name self.now) }
    {
        let mut text = Bytes::new(alloc);
        if self.counted {
            text.push(AMPERSAND)?;
        }
        text.append(self.var.name())?;
        if !self.name.is_empty() {
            text.push(COLON)?;
            text.append(self.name.as_slice())?;
        }
        Ok(text)
    }
}

fn selector_text(select: &Select) -> &[u8]
    ensures { result.now ≡ selector_text select.now }
{
    match select {
        Select::All => &[],
        Select::Name(name) => name.as_slice(),
        Select::Pattern(pattern) => pattern.as_slice(),
    }
}
