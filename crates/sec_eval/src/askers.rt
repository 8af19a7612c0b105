ghost use Rattle.std.specs.Prelude.{◌≡◌, ◌+◌, ◌≤◌, map, IfOk, OnOk};
ghost use Rattle.sec_compile.specs.Links.{built_link};
ghost use Rattle.sec_eval.specs.Counting.{RunsTo};
ghost use Rattle.sec_meaning.specs.Links.{after_links};
ghost use Rattle.sec_meaning.specs.Phase.{walk};
ghost use Rattle.sec_ops.specs.Hits.{groups_of, hit};

use crate::State;
use crate::links::after_links;
use crate::phase::{Flow, walk};
use sec_ast::Link;
use sec_compile::{BuiltLink, Ruleset};
use sec_meaning::Passing;
use sec_ops::{Asker, Hit, NamePattern};
use std::alloc::Global;
use std::marker::Model;
use std::sync::ledger::Ledger;
use waf_plain::{NoMemory, Seq, Steps};

/// What is built of a link, with what its questions write to. Contracts see it as what is built.
#[derive(Drop)]
pub(crate) struct LinkAsker<'r> {
    built: &'r BuiltLink,
    op: Asker<'r>,
}

impl<'r> Model for LinkAsker<'r> {
    ghost use Rattle.std.specs.Prelude.{◌≡◌};
    ghost use Rattle.sec_compile.specs.declared.links.BuiltLink.{BuiltLink};

    ghost Value = { BuiltLink };

    ghost view = { λ s. s.built.now };

    ghost invariant = { λ s. s.op ≡ s.built.now.op };
}

impl<'r> LinkAsker<'r> {
    fn new(built: &'r BuiltLink) -> LinkAsker<'r>
        ensures { result ≡ built.now }
    {
        LinkAsker {
            built,
            op: Asker::new(&built.op),
        }
    }

    /// For each target the pattern by which it selects names, if it does.
    pub(crate) fn patterns(&self) -> &'r [Option<NamePattern>]
        ensures { result.now ≡ self.now.patterns }
    {
        let built: &'r BuiltLink = self.built;
        built.patterns.as_slice()
    }

    /// What the operator finds in a value.
    pub(crate) fn ask(&mut self, argument: &[u8], value: &[u8]) -> Result<Hit, NoMemory>
        ensures found { IfOk result (λ found. groups_of found ≡ hit self.old.op argument.now value.now) }
        ensures same { self.new ≡ self.old }
    {
        self.op.ask(argument, value)
    }
}

/// What is built of the links of an item, with what their questions write to, which is made when the
/// item is first looked at. Contracts see it as what is built.
#[derive(Drop)]
pub(crate) struct RuleAskers<'r> {
    built: &'r Seq<BuiltLink>,
    kept: Vec<LinkAsker<'r>>,
}

impl<'r> Model for RuleAskers<'r> {
    ghost use Rattle.std.specs.Prelude.{◌≡◌, ◌⊎◌, [], List};
    ghost use Rattle.sec_compile.specs.declared.links.BuiltLink.{BuiltLink};

    ghost Value = { List BuiltLink };

    ghost view = { λ s. s.built.now };

    ghost invariant = { λ s. (s.kept.items ≡ []) ⊎ (s.kept.items ≡ s.built.now) };
}

impl<'r> RuleAskers<'r> {
    fn new(alloc: Global, built: &'r Seq<BuiltLink>) -> RuleAskers<'r>
        ensures { result ≡ built.now }
    {
        RuleAskers {
            built,
            kept: Vec::new(alloc),
        }
    }

    /// Whether each link holds, of which these were built.
    pub(crate) fn after_links(
        &mut self,
        alloc: Global,
        links: &[Link],
        state: &mut State,
    ) -> Result<bool, NoMemory>
        requires { self.old ≡ map built_link links.now }
        ensures holds { IfOk result (λ holds. holds ≡ (after_links links.now state.old).0) }
        ensures state { OnOk result (state.new ≡ (after_links links.now state.old).1) }
        ensures same { self.new ≡ self.old }
    {
        if self.kept.len() < links.len() {
            let built: &'r Seq<BuiltLink> = self.built;
            self.kept = link_askers(alloc, built.as_slice())?;
        }
        after_links(alloc, links, &mut self.kept, state)
    }
}

fn link_askers<'r>(alloc: Global, built: &'r [BuiltLink]) -> Result<Vec<LinkAsker<'r>>, NoMemory>
    ensures { IfOk result (λ askers. askers.items ≡ built.now) }
{
    let mut askers = Vec::new(alloc);
    for link in built {
        askers.push(LinkAsker::new(link))?;
    }
    Ok(askers)
}

/// A rule set with what its questions write to, for one owner who judges request after request by it.
/// What a pattern's search needs is made at its first question and kept. Contracts see it as the
/// rule set.
#[derive(Drop)]
pub struct Askers<'r> {
    rules: &'r Ruleset,
    kept: Vec<RuleAskers<'r>>,
}

impl<'r> Model for Askers<'r> {
    ghost use Rattle.std.specs.Prelude.{◌≡◌, map};
    ghost use Rattle.sec_ast.specs.declared.listing.Listing.{Listing};
    ghost use Rattle.sec_compile.specs.Links.{built_links};

    ghost Value = { Listing };

    ghost view = { λ s. s.rules.now };

    ghost invariant = { λ s. s.kept.items ≡ map built_links s.rules.now.items };
}

fn rule_askers<'r>(
    alloc: Global,
    built: &'r [Seq<BuiltLink>],
) -> Result<Vec<RuleAskers<'r>>, NoMemory>
    ensures { IfOk result (λ askers. askers.items ≡ built.now) }
{
    let mut askers = Vec::with_capacity(alloc, built.len())?;
    for links in built {
        askers.push(RuleAskers::new(alloc, links))?;
    }
    Ok(askers)
}

impl<'r> Askers<'r> {
    /// A rule set of which no question was asked yet.
    pub fn new(alloc: Global, rules: &'r Ruleset) -> Result<Askers<'r>, NoMemory>
        ensures { IfOk result (λ askers. askers ≡ rules.now) }
    {
        let kept = rule_askers(alloc, rules.built())?;
        Ok(Askers { rules, kept })
    }

    /// The rule set.
    pub fn rules(&self) -> &'r Ruleset
        ensures { result.now ≡ self.now }
    {
        self.rules
    }

    /// The items of the listing for one phase.
    pub(crate) fn walk<L: Ledger>(
        &mut self,
        alloc: Global,
        number: u8,
        state: &mut State,
        steps: &mut Steps<L>,
    ) -> Result<Flow, NoMemory>
        ensures ok { IfOk result (λ flow.
            RunsTo steps.old (walk number self.old.items Passing.Looking state.old) steps.new state.new flow) }
        ensures most { steps.new ≤ steps.old + (walk number self.old.items Passing.Looking state.old).looked }
        ensures same { self.new ≡ self.old }
    {
        let rules: &'r Ruleset = self.rules;
        let items = rules.listing().items.as_slice();
        walk(alloc, number, items, &mut self.kept, state, steps)
    }
}
