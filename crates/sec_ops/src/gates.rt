//! Needles of which every match of a pattern holds one: a value without any has no match.
ghost use Rattle.std.specs.Prelude.{◌≡◌, ◌⊎◌, false, IfOk};
ghost use Rattle.regex_hir.specs.Meaning.{meaning};
ghost use Rattle.sec_ops.specs.Gates.{HasNone, IsGate, IsGateOf, IsShutTo};
ghost use Rattle.sec_ops.specs.Pattern.{rule_config};

use crate::phrases::fold;
use regex_extract::{rarest_sign, required};
use regex_hir::Hir;
use regex_literal::{Bounded, Prefilter};
use regex_syntax::{Config, Flags, parse};
use std::alloc::Global;
use waf_plain::NoMemory;

/// What is asked of a value before a search.
#[derive(Drop)]
pub(crate) enum Gate {
    /// Nothing: each value is searched.
    Open,
    /// A needle stands in the value.
    Exact(Prefilter),
    /// A needle stands in the value in lower case.
    Lower(Prefilter),
}

/// Nanoseconds for a search in a value that a needle stands in.
const SEARCH: u64 = 1500;

/// What is to be asked of a value before a search for the pattern.
pub(crate) fn gate_of(alloc: Global, source: &str) -> Result<Gate, NoMemory>
    ensures { IfOk result (IsGateOf source.now) }
{
    match parse(alloc, source, &config()) {
        Ok(parsed) => gate_in(alloc, &parsed.hir),
        Err(_) => Ok(Gate::Open),
    }
}

fn config() -> Config
    ensures { result ≡ rule_config }
{
    Config {
        flags: Flags {
            dot_matches_new_line: true,
            ..Flags::default()
        },
        utf8: false,
        ..Config::default()
    }
}

fn gate_in(alloc: Global, hir: &Hir) -> Result<Gate, NoMemory>
    ensures { IfOk result (IsGate (meaning hir.now)) }
{
    let exact = exact_gate(alloc, hir)?;
    let lower = lower_gate(alloc, hir)?;
    Ok(cheaper(exact, lower))
}

fn exact_gate(alloc: Global, hir: &Hir) -> Result<Gate, NoMemory>
    ensures { IfOk result (IsGate (meaning hir.now)) }
{
    let Some(needles) = required(alloc, hir)? else {
        return Ok(Gate::Open);
    };
    match Prefilter::new(alloc, needles)? {
        Some(needles) => Ok(Gate::Exact(needles)),
        None => Ok(Gate::Open),
    }
}

fn lower_gate(alloc: Global, hir: &Hir) -> Result<Gate, NoMemory>
    ensures { IfOk result (IsGate (meaning hir.now)) }
{
    let Some(sign) = rarest_sign(alloc, hir)? else {
        return Ok(Gate::Open);
    };
    match Prefilter::new(alloc, sign.needles)? {
        Some(needles) => Ok(Gate::Lower(needles)),
        None => Ok(Gate::Open),
    }
}

fn cheaper(first: Gate, second: Gate) -> Gate
    ensures { (result ≡ first) ⊎ (result ≡ second) }
{
    if cost(&second) < cost(&first) {
        return second;
    }
    first
}

/// Nanoseconds for a million bytes of plain text.
fn cost(gate: &Gate) -> u64 {
    match gate {
        Gate::Open => u64::MAX,
        Gate::Exact(needles) => cost_of(needles),
        Gate::Lower(needles) => cost_of(needles),
    }
}

fn cost_of(needles: &Prefilter) -> u64 {
    let searches = needles.needles_per_million().saturating_mul(SEARCH);
    needles.scan_cost().saturating_add(searches)
}

/// Whether the gate is open to a value.
pub(crate) fn is_open(alloc: Global, gate: &Gate, value: &[u8]) -> Result<bool, NoMemory>
    ensures { IfOk result (λ may. may ≡ false → IsShutTo gate.now value.now) }
{
    match gate {
        Gate::Open => Ok(true),
        Gate::Exact(needles) => Ok(may_hold(needles, value)),
        Gate::Lower(needles) => {
            let lower = fold(alloc, value)?;
            Ok(may_hold(needles, lower.as_slice()))
        }
    }
}

/// Whether a needle may stand in the text. A search that tires answers yes.
fn may_hold(needles: &Prefilter, text: &[u8]) -> bool
    ensures { result ≡ false → HasNone needles.now text.now }
{
    match needles.find_bounded(text, 0) {
        Bounded::Missing => false,
        Bounded::Found(_, _) => true,
        Bounded::Tired(_) => true,
    }
}
