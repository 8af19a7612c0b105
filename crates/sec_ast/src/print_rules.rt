ghost use Rattle.std.specs.Prelude.{◌≡◌, ◌++◌, ◌∷◌, [], OnOk, codes};
ghost use Rattle.std.specs.List.{join_with_byte};
ghost use Rattle.sec_ast.specs.PrintActions.{link_pieces};
ghost use Rattle.sec_ast.specs.PrintRules.{action_word, condition_words, is_more, link_line, rule_text};
ghost use Rattle.sec_ast.specs.PrintTexts.{line_of};

use crate::link::Link;
use crate::print_actions::{add_link, rule_pieces};
use crate::print_operators::put_operator;
use crate::print_targets::put_targets;
use crate::print_texts::{put_joined, put_line};
use crate::rule::Rule;
use sec_text::characters::COMMA;
use std::alloc::Global;
use waf_plain::{Bytes, NoMemory, Seq};

/// Puts a rule as it is written, a line for each link.
pub(crate) fn put_rule(alloc: Global, rule: &Rule, out: &mut Bytes) -> Result<(), NoMemory>
    ensures { OnOk result (out.new ≡ out.old ++ rule_text rule.now) }
{
    let mut pieces = rule_pieces(alloc, rule)?;
    let mut left = rule.links.as_slice();
    while let Some((link, rest)) = left.split_first() {
        put_link(alloc, pieces, link, is_more(rest), out)?;
        pieces = Seq::new(alloc);
        left = rest;
    }
    Ok(())
}

fn is_more(links: &[Link]) -> bool
    ensures { result ≡ is_more links.now }
{
    !links.is_empty()
}

// The line of a link that has these pieces before its own.
fn put_link(
    alloc: Global,
    mut pieces: Seq<Bytes>,
    link: &Link,
    follows: bool,
    out: &mut Bytes,
) -> Result<(), NoMemory>
    ensures { OnOk result (out.new ≡
        out.old ++ link_line link.now (join_with_byte COMMA (pieces ++ link_pieces link.now follows))) }
{
    let mut actions = Bytes::new(alloc);
    add_link(alloc, link, follows, &mut pieces)?;
    put_joined(COMMA, pieces.as_slice(), &mut actions)?;
    put_link_line(alloc, link, actions.as_slice(), out)
}

#[tactic(auto, unfolding(crate::specs::PrintRules::link_line))]
fn put_link_line(
    alloc: Global,
    link: &Link,
    actions: &[u8],
    out: &mut Bytes,
) -> Result<(), NoMemory>
    ensures { OnOk result (out.new ≡ out.old ++ link_line link.now actions.now) }
{
    if link.always {
        return put_line(b"SecAction", &[action_word(actions)], out);
    }
    put_condition(alloc, link, actions, out)
}

fn action_word(actions: &[u8]) -> &[u8]
    ensures { result.now ≡ action_word actions.now }
{
    if actions.is_empty() {
        return b"severity:0";
    }
    actions
}

fn put_condition(
    alloc: Global,
    link: &Link,
    actions: &[u8],
    out: &mut Bytes,
) -> Result<(), NoMemory>
    ensures { OnOk result (out.new ≡ out.old ++ line_of (codes "SecRule") (condition_words link.now actions.now)) }
{
    let mut targets = Bytes::new(alloc);
    let mut operator = Bytes::new(alloc);
    put_targets(link.targets.as_slice(), &mut targets)?;
    put_operator(alloc, link.negated, &link.op, &mut operator)?;
    let targets = targets.as_slice();
    let operator = operator.as_slice();
    if actions.is_empty() {
        return put_line(b"SecRule", &[targets, operator], out);
    }
    put_line(b"SecRule", &[targets, operator, actions], out)
}
