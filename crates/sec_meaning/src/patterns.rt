ghost use Rattle.std.specs.Prelude.{◌≡◌, IfOk};
ghost use Rattle.sec_ops.specs.Selectors.{pattern_of, patterns_of};

use sec_ast::{Op, Select, Target};
use sec_ops::{Built, NamePattern, build};
use std::alloc::Global;
use waf_plain::{NoMemory, Seq};

/// The operator of a link. Its pattern was read before, so one that is not built wants memory.
pub(crate) fn built_of(alloc: Global, op: &Op) -> Result<Built, NoMemory>
    ensures { IfOk result (λ built. built ≡ op.now) }
{
    match build(alloc, op) {
        Ok(built) => Ok(built),
        Err(_) => Err(NoMemory),
    }
}

/// For each target the pattern by which it selects, if it does.
pub(crate) fn patterns_of(
    alloc: Global,
    targets: &[Target],
) -> Result<Seq<Option<NamePattern>>, NoMemory>
    ensures { IfOk result (λ patterns. patterns ≡ patterns_of targets.now) }
{
    let mut patterns = Seq::new(alloc);
    for target in targets {
        patterns.push(pattern_for(alloc, &target.select)?)?;
    }
    Ok(patterns)
}

fn pattern_for(alloc: Global, select: &Select) -> Result<Option<NamePattern>, NoMemory>
    ensures { IfOk result (λ pattern. pattern ≡ pattern_of select.now) }
{
    match select {
        Select::Pattern(pattern) => match NamePattern::read(alloc, pattern.as_slice()) {
            Ok(built) => Ok(Some(built)),
            Err(_) => Err(NoMemory),
        },
        Select::All => Ok(None),
        Select::Name(_) => Ok(None),
    }
}
