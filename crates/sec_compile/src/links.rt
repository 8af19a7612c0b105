ghost use Rattle.std.specs.Prelude.{◌≡◌, None, Some, false, true, map, IfErr, IfOk, OnOk};
ghost use Rattle.std.specs.List.{list_any};
ghost use Rattle.sec_ops.specs.Selectors.{pattern_of, patterns_of};
ghost use Rattle.sec_compile.specs.Links.{built_link, built_links};
ghost use Rattle.sec_compile.specs.Unread.{IsFault, fault_of, first_fault, is_unread_link, is_unread_selector, is_unread_target};

use crate::CompileFault;
use sec_ast::{Item, Link, Rule, Select, Target};
use sec_ops::{BuildFault, Built, NamePattern, build};
use std::alloc::Global;
use waf_plain::Seq;

/// What is built of a link: its operator, and for each target, in their order, the pattern by which
/// it selects names, if it selects by one.
#[derive(Drop)]
pub struct BuiltLink {
    pub op: Built,
    pub patterns: Seq<Option<NamePattern>>,
}

/// Builds the links of each item, in their order; a marker has none. A pattern that has no reading is
/// a fault wherever it stands: in a later link of a chain, and in a target that excludes, too.
#[tactic(auto, using(crate::proofs::Readings::found))]
pub fn build_items(alloc: Global, items: &[Item]) -> Result<Seq<Seq<BuiltLink>>, CompileFault>
    ensures ok { IfOk result (λ built. built ≡ map built_links items.now) }
    ensures read { OnOk result (first_fault items.now ≡ None) }
    ensures bad { IfErr result (λ fault. IsFault fault (first_fault items.now)) }
{
    let mut built = Seq::new(alloc);
    for item in items {
        built.push(build_item(alloc, item)?)?;
    }
    Ok(built)
}

fn build_item(alloc: Global, item: &Item) -> Result<Seq<BuiltLink>, CompileFault>
    ensures ok { IfOk result (λ built. built ≡ built_links item.now) }
    ensures read { OnOk result (fault_of item.now ≡ None) }
    ensures bad { IfErr result (λ fault. IsFault fault (fault_of item.now)) }
{
    match item {
        Item::Marker(_) => Ok(Seq::new(alloc)),
        Item::Rule(rule) => build_rule(alloc, rule),
    }
}

fn build_rule(alloc: Global, rule: &Rule) -> Result<Seq<BuiltLink>, CompileFault>
    ensures ok { IfOk result (λ built. built ≡ map built_link rule.now.links) }
    ensures read { OnOk result (fault_of (Item.Rule rule.now) ≡ None) }
    ensures bad { IfErr result (λ fault. IsFault fault (fault_of (Item.Rule rule.now))) }
{
    match build_links(alloc, rule.links.as_slice()) {
        Ok(links) => Ok(links),
        Err(BuildFault::NoMemory) => Err(CompileFault::NoMemory),
        Err(BuildFault::BadPattern) => Err(bad_pattern(rule)),
    }
}

fn bad_pattern(rule: &Rule) -> CompileFault
    ensures { IsFault result (Some (CompileFault.BadPattern rule.now.place rule.now.id)) }
{
    match rule.place.clone() {
        Ok(place) => CompileFault::BadPattern { place, id: rule.id },
        Err(_) => CompileFault::NoMemory,
    }
}

fn build_links(alloc: Global, links: &[Link]) -> Result<Seq<BuiltLink>, BuildFault>
    ensures ok { IfOk result (λ built. built ≡ map built_link links.now) }
    ensures read { OnOk result (list_any is_unread_link links.now ≡ false) }
    ensures bad { IfErr result (λ e. e ≡ BuildFault.BadPattern → list_any is_unread_link links.now ≡ true) }
{
    let mut built = Seq::new(alloc);
    for link in links {
        built.push(build_link(alloc, link)?)?;
    }
    Ok(built)
}

fn build_link(alloc: Global, link: &Link) -> Result<BuiltLink, BuildFault>
    ensures ok { IfOk result (λ built. built ≡ built_link link.now) }
    ensures read { OnOk result (is_unread_link link.now ≡ false) }
    ensures bad { IfErr result (λ e. e ≡ BuildFault.BadPattern → is_unread_link link.now ≡ true) }
{
    let op = build(alloc, &link.op)?;
    let patterns = build_patterns(alloc, link.targets.as_slice())?;
    Ok(BuiltLink { op, patterns })
}

fn build_patterns(alloc: Global, targets: &[Target]) -> Result<Seq<Option<NamePattern>>, BuildFault>
    ensures ok { IfOk result (λ patterns. patterns ≡ patterns_of targets.now) }
    ensures read { OnOk result (list_any is_unread_target targets.now ≡ false) }
    ensures bad { IfErr result (λ e. e ≡ BuildFault.BadPattern → list_any is_unread_target targets.now ≡ true) }
{
    let mut patterns = Seq::new(alloc);
    for target in targets {
        patterns.push(build_pattern(alloc, &target.select)?)?;
    }
    Ok(patterns)
}

fn build_pattern(alloc: Global, select: &Select) -> Result<Option<NamePattern>, BuildFault>
    ensures ok { IfOk result (λ pattern. pattern ≡ pattern_of select.now) }
    ensures read { OnOk result (is_unread_selector (pattern_of select.now) ≡ false) }
    ensures bad { IfErr result (λ e. e ≡ BuildFault.BadPattern → is_unread_selector (pattern_of select.now) ≡ true) }
{
    match select {
        Select::Pattern(pattern) => Ok(Some(NamePattern::read(alloc, pattern.as_slice())?)),
        Select::All => Ok(None),
        Select::Name(_) => Ok(None),
    }
}
