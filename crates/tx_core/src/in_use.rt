ghost use Rattle.std.specs.Prelude.{◌≡◌, ◌+◌, ◌≤◌, IfOk};
ghost use Rattle.std.specs.Arc.{arc_value};
ghost use Rattle.sec_eval.specs.Counting.{rules_in};
ghost use Rattle.sec_meaning.specs.declared.phase_number.TheConstants.{REQUEST_HEADERS, REQUEST_BODY, LOGGING};
ghost use Rattle.tx_core.specs.Halves.{BeginsAs};

use crate::Begun;
use crate::half::begin_by;
use sec_compile::Ruleset;
use sec_eval::Askers;
use std::alloc::Global;
use std::marker::Model;
use std::sync::Arc;
use std::sync::ledger::Ledger;
use waf_plain::{NoMemory, Steps};
use web_parts::Request;

/// A rule set by which one owner judges request after request: what its patterns' searches need is
/// made once and kept. Contracts see it as the rule set.
#[derive(Drop)]
pub struct RulesInUse<'r> {
    rules: &'r Arc<Ruleset, Global>,
    askers: Askers<'r>,
}

impl<'r> Model for RulesInUse<'r> {
    ghost use Rattle.std.specs.Prelude.{◌≡◌};
    ghost use Rattle.std.specs.Arc.{arc_value};
    ghost use Rattle.sec_ast.specs.declared.listing.Listing.{Listing};

    ghost Value = { Listing };

    ghost view = { λ s. arc_value s.rules.now };

    ghost invariant = { λ s. s.askers ≡ arc_value s.rules.now };
}

impl<'r> RulesInUse<'r> {
    /// A rule set by which nothing was judged yet.
    pub fn new(alloc: Global, rules: &'r Arc<Ruleset, Global>) -> Result<RulesInUse<'r>, NoMemory>
        ensures { IfOk result (λ in_use. in_use ≡ arc_value rules.now) }
    {
        let askers = Askers::new(alloc, rules)?;
        Ok(RulesInUse { rules, askers })
    }

    /// Judges a request, as `begin` does.
    pub fn begin<L: Ledger>(
        &mut self,
        alloc: Global,
        generation: u64,
        request: Request,
        steps: &mut Steps<L>,
    ) -> Result<Begun, NoMemory>
        ensures begins { IfOk result (λ begun. BeginsAs self.old generation request begun) }
        ensures most { steps.new ≤ steps.old
            + (rules_in REQUEST_HEADERS self.old.items + rules_in REQUEST_BODY self.old.items
            + rules_in LOGGING self.old.items) }
        ensures same { self.new ≡ self.old }
    {
        let rules = match self.rules.clone() {
            Ok(rules) => rules,
            Err(_) => {
                drop(request);
                return Err(NoMemory);
            }
        };
        begin_by(alloc, rules, &mut self.askers, generation, request, steps)
    }
}
