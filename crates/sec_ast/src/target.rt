ghost use Rattle.std.specs.Prelude.{◌≡◌};

use crate::variable::Var;
use std::alloc::AllocError;
use waf_plain::Bytes;

/// Which rows of a variable.
#[derive(Debug, PartialEq, Drop)]
pub enum Select {
    /// All of them; of a single variable its one row.
    All,
    /// Those whose name is this one, without regard to case.
    Name(Bytes),
    /// Those in whose name this pattern has a match, without regard to case.
    Pattern(Bytes),
}

impl Clone for Select {
    ghost is_clone = { λ a b. b ≡ a };

    fn clone(&self) -> Result<Select, AllocError> {
        match self {
            Select::All => Ok(Select::All),
            Select::Name(name) => Ok(Select::Name(name.clone()?)),
            Select::Pattern(pattern) => Ok(Select::Pattern(pattern.clone()?)),
        }
    }
}

/// Rows that a rule looks at: `count` (`&`) asks for their number, and `exclude` (`!`) takes them
/// away from what the rule's other targets select.
#[derive(Debug, PartialEq, Drop)]
pub struct Target {
    pub count: bool,
    pub exclude: bool,
    pub var: Var,
    pub select: Select,
}

impl Clone for Target {
    ghost is_clone = { λ a b. b ≡ a };

    fn clone(&self) -> Result<Target, AllocError> {
        let select = self.select.clone()?;
        Ok(Target {
            count: self.count,
            exclude: self.exclude,
            var: self.var,
            select,
        })
    }
}
