ghost use Rattle.std.specs.Prelude.{◌≡◌, map, IfOk, OnOk};
ghost use Rattle.sec_compile.specs.Links.{built_link};
ghost use Rattle.sec_meaning.specs.Effect.{effect};

use crate::State;
use crate::askers::RuleAskers;
use sec_ast::Rule;
use sec_meaning::{RuleFlow, matched_effect};
use std::alloc::Global;
use waf_plain::NoMemory;

/// What a rule does, of whose links these are the askers.
pub(crate) fn effect(
    alloc: Global,
    rule: &Rule,
    askers: &mut RuleAskers<'_>,
    state: &mut State,
) -> Result<RuleFlow, NoMemory>
    requires { askers.old ≡ map built_link rule.now.links }
    ensures flow { IfOk result (λ flow. flow ≡ (effect rule.now state.old).1) }
    ensures state { OnOk result (state.new ≡ (effect rule.now state.old).0) }
    ensures same { askers.new ≡ askers.old }
{
    let holds = askers.after_links(alloc, rule.links.as_slice(), state)?;
    matched_effect(alloc, rule, holds, state)
}
