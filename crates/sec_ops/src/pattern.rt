ghost use Rattle.std.specs.Prelude.{◌≡◌, ◌-◌, IfOk, IfErr, IsSome, None, false, map, option_map, take, drop, vec_items};
ghost use Rattle.std.specs.List.{range_with_len};
ghost use Rattle.regex.specs.Views.{builder_config, builder_source};
ghost use Rattle.regex.specs.Bytes.{IsReadFromSource, group_count, regex_config, regex_pattern, regex_source};
ghost use Rattle.regex.specs.Locations.{location, location_count};
ghost use Rattle.regex.specs.Patterns.{find};
ghost use Rattle.sec_ops.specs.Gates.{IsGate};
ghost use Rattle.sec_ops.specs.Pattern.{between, reading_of, rule_config, spans_of, texts_in};

use crate::BuildFault;
use crate::gates::{Gate, gate_of, is_open};
use regex::bytes::Regex;
use regex::{CaptureLocations, Error, RegexBuilder};
use std::alloc::Global;
use waf_plain::{Bytes, NoMemory, Seq};

/// A compiled pattern, and what is asked of a value before a search for it.
#[derive(Drop)]
pub(crate) struct Pattern {
    pub(crate) regex: Regex,
    pub(crate) gate: Gate,
    ghost gated: { IsGate (regex_pattern regex) gate },
}

/// Compiles a pattern.
pub(crate) fn compile(alloc: Global, source: &str) -> Result<Pattern, BuildFault>
    ensures source { IfOk result (λ p. regex_source p.regex ≡ source.now) }
    ensures config { IfOk result (λ p. regex_config p.regex ≡ rule_config) }
    ensures read { IfOk result (λ p. IsReadFromSource p.regex) }
    ensures has_reading { IfOk result (λ _. IsSome (reading_of source.now)) }
    ensures bad { IfErr result (λ e. e ≡ BuildFault.BadPattern → reading_of source.now ≡ None) }
{
    match regex_of(alloc, source) {
        Ok(regex) => match gate_of(alloc, source) {
            Ok(gate) => Ok(Pattern { regex, gate }),
            Err(NoMemory) => Err(BuildFault::NoMemory),
        },
        Err(fault) => Err(fault),
    }
}

fn regex_of(alloc: Global, source: &str) -> Result<Regex, BuildFault>
    ensures source { IfOk result (λ r. regex_source r ≡ source.now) }
    ensures config { IfOk result (λ r. regex_config r ≡ rule_config) }
    ensures read { IfOk result IsReadFromSource }
    ensures has_reading { IfOk result (λ _. IsSome (reading_of source.now)) }
    ensures bad { IfErr result (λ e. e ≡ BuildFault.BadPattern → reading_of source.now ≡ None) }
{
    match builder(source).build_bytes(alloc) {
        Ok(regex) => Ok(regex),
        Err(Error::Syntax(_)) => Err(BuildFault::BadPattern),
        Err(_) => Err(BuildFault::NoMemory),
    }
}

/// `.` matches line ends, and everything else is at its default.
fn builder(source: &str) -> RegexBuilder<'_>
    ensures source { builder_source result ≡ source.now }
    ensures config { record (builder_config result) { utf8 = false } ≡ rule_config }
{
    RegexBuilder::new(source).dot_matches_new_line(true)
}

/// A span for each group that took part.
pub(crate) type Spans = Vec<Option<(usize, usize)>>;

pub(crate) fn spans(alloc: Global, locations: &CaptureLocations) -> Result<Spans, NoMemory>
    ensures { IfOk result
        (λ v. v.items ≡ map (location locations.now) (range_with_len 0 (location_count locations.now))) }
{
    let mut spans = Vec::new(alloc);
    for k in 0..locations.len() {
        spans.push(locations.get(k))?;
    }
    Ok(spans)
}

/// The spans of the groups of the first match. The matcher lives for this value alone.
fn groups_in(alloc: Global, regex: &Regex, value: &[u8]) -> Result<Option<Spans>, NoMemory>
    ensures { IfOk result (λ g. option_map vec_items g
        ≡ option_map (spans_of (group_count regex.now)) (find (regex_pattern regex.now) value.now 0)) }
{
    let mut matcher = regex.matcher(alloc)?;
    let mut locations = regex.capture_locations(alloc)?;
    match matcher.captures_read(&mut locations, value) {
        None => Ok(None),
        Some(_) => Ok(Some(spans(alloc, &locations)?)),
    }
}

/// The texts of the groups of the first match of a compiled pattern.
pub(crate) fn texts(
    alloc: Global,
    pattern: &Pattern,
    value: &[u8],
) -> Result<Option<Seq<Option<Bytes>>>, NoMemory>
    ensures { IfOk result (λ g. g ≡ option_map (texts_in value.now)
        (option_map (spans_of (group_count pattern.now.regex)) (find (regex_pattern pattern.now.regex) value.now 0))) }
{
    if !is_open(alloc, &pattern.gate, value)? {
        return Ok(None);
    }
    match groups_in(alloc, &pattern.regex, value)? {
        None => Ok(None),
        Some(spans) => Ok(Some(texts_of(alloc, spans.as_slice(), value)?)),
    }
}

pub(crate) fn texts_of(
    alloc: Global,
    spans: &[Option<(usize, usize)>],
    value: &[u8],
) -> Result<Seq<Option<Bytes>>, NoMemory>
    ensures { IfOk result (λ g. g ≡ texts_in value.now spans.now) }
{
    let mut texts = Seq::new(alloc);
    for span in spans {
        texts.push(text_of(alloc, *span, value)?)?;
    }
    Ok(texts)
}

fn text_of(
    alloc: Global,
    span: Option<(usize, usize)>,
    value: &[u8],
) -> Result<Option<Bytes>, NoMemory>
    ensures { IfOk result (λ t. t ≡ option_map (between value.now) span) }
{
    match span {
        None => Ok(None),
        Some((start, end)) => Ok(Some(Bytes::copy(alloc, part(value, start, end))?)),
    }
}

/// The bytes from `start` up to `end`.
pub(crate) fn part(value: &[u8], start: usize, end: usize) -> &[u8]
    ensures { result.now ≡ take (end - start) (drop start value.now) }
{
    front(behind(value, start), end.saturating_sub(start))
}

fn behind(value: &[u8], start: usize) -> &[u8]
    ensures { result.now ≡ drop start value.now }
{
    if start > value.len() {
        return &[];
    }
    value.split_at(start).1
}

fn front(value: &[u8], count: usize) -> &[u8]
    ensures { result.now ≡ take count value.now }
{
    if count > value.len() {
        return value;
    }
    value.split_at(count).0
}
