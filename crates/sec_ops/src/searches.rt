//! Searches for a pattern in value after value: what they write to is made once.
ghost use Rattle.std.specs.Prelude.{◌≡◌, List, ℕ, IfOk, option_map};
ghost use Rattle.regex.specs.Bytes.{group_count, matcher_pattern, regex_pattern};
ghost use Rattle.regex.specs.Locations.{location_count};
ghost use Rattle.regex.specs.Patterns.{find};
ghost use Rattle.sec_ops.specs.Pattern.{spans_of, texts_in};

use crate::pattern::{Pattern, spans, texts_of};
use regex::CaptureLocations;
use regex::bytes::Matcher;
use std::alloc::Global;
use waf_plain::{Bytes, NoMemory, Seq};

/// A pattern with what its searches write to.
#[derive(Drop)]
pub(crate) struct Search<'b> {
    pub(crate) pattern: &'b Pattern,
    matcher: Matcher<'b>,
    locations: CaptureLocations,
    ghost same: { (value : List ℕ) → find (matcher_pattern matcher) value 0 ≡ find (regex_pattern pattern.now.regex) value 0 },
    ghost count: { location_count locations ≡ group_count pattern.now.regex },
}

impl<'b> Search<'b> {
    pub(crate) fn new(alloc: Global, pattern: &'b Pattern) -> Result<Search<'b>, NoMemory>
        ensures { IfOk result (λ s. s.pattern.now ≡ pattern.now) }
    {
        let matcher = pattern.regex.matcher(alloc)?;
        let locations = pattern.regex.capture_locations(alloc)?;
        Ok(Search {
            pattern,
            matcher,
            locations,
        })
    }

    /// The texts of the groups of the first match. Groups are looked for only where there is one.
    pub(crate) fn texts(
        &mut self,
        alloc: Global,
        value: &[u8],
    ) -> Result<Option<Seq<Option<Bytes>>>, NoMemory>
        ensures found { IfOk result (λ g. g ≡ option_map (texts_in value.now)
            (option_map (spans_of (group_count self.old.pattern.now.regex))
            (find (regex_pattern self.old.pattern.now.regex) value.now 0))) }
        ensures kept { self.new.pattern.now ≡ self.old.pattern.now }
    {
        if !self.matcher.is_match(value) {
            return Ok(None);
        }
        match self.matcher.captures_read(&mut self.locations, value) {
            None => Ok(None),
            Some(_) => {
                let spans = spans(alloc, &self.locations)?;
                Ok(Some(texts_of(alloc, spans.as_slice(), value)?))
            },
        }
    }
}
