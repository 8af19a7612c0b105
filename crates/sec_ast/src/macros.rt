ghost use Rattle.std.specs.Prelude.{◌≡◌};

use crate::variable::Var;
use std::alloc::AllocError;
use waf_plain::{Bytes, Seq};

/// A piece of a macro.
#[derive(Debug, PartialEq, Drop)]
pub enum Part {
    /// Bytes that stand for themselves.
    Text(Bytes),
    /// `%{NAME}` or `%{NAME.KEY}`: a variable and, for a collection, the name of a row.
    Ref(Var, Option<Bytes>),
}

impl Clone for Part {
    ghost is_clone = { λ a b. b ≡ a };

    fn clone(&self) -> Result<Part, AllocError> {
        match self {
            Part::Text(text) => Ok(Part::Text(text.clone()?)),
            Part::Ref(var, key) => Ok(Part::Ref(*var, key.clone()?)),
        }
    }
}

/// A text with references to variables, which are expanded as a rule is evaluated.
pub type Macro = Seq<Part>;
