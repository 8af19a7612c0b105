ghost use Rattle.std.specs.Prelude.{◌≡◌};

use crate::action::{Ctl, SetVar};
use crate::operator::Op;
use crate::target::Target;
use crate::transform::Transform;
use std::alloc::AllocError;
use waf_plain::Seq;

/// One directive of a rule: `SecRule`, or `SecAction` where `always` is true. It holds where the
/// operator (or, where `negated`, its contrary) holds of a value that `targets` select, once the
/// transformations are done; where `multi` (`multiMatch`) it is tried before each of them too.
/// `capture` keeps the operator's groups in TX.
#[derive(Debug, PartialEq, Drop)]
pub struct Link {
    pub targets: Seq<Target>,
    pub always: bool,
    pub negated: bool,
    pub op: Op,
    pub transforms: Seq<Transform>,
    pub capture: bool,
    pub multi: bool,
    pub setvars: Seq<SetVar>,
    pub ctls: Seq<Ctl>,
}

impl Clone for Link {
    ghost is_clone = { λ a b. b ≡ a };

    fn clone(&self) -> Result<Link, AllocError> {
        let targets = self.targets.clone()?;
        let op = self.op.clone()?;
        let transforms = self.transforms.clone()?;
        let setvars = self.setvars.clone()?;
        let ctls = self.ctls.clone()?;
        Ok(Link {
            targets,
            always: self.always,
            negated: self.negated,
            op,
            transforms,
            capture: self.capture,
            multi: self.multi,
            setvars,
            ctls,
        })
    }
}
