ghost use Rattle.std.specs.Prelude.{◌≡◌, bytes_eq};
ghost use Rattle.std.specs.List.{list_any};
ghost use Rattle.sec_parts.specs.Results.{Gives};
ghost use Rattle.sec_read.specs.Removals.{is_removed, kept, names_id, names_tag, no_removals, with_ids};

use crate::faults::bad_word;
use sec_ast::Item;
use sec_parts::{Refusal, read_id_range};
use std::alloc::Global;
use waf_plain::{Bytes, Seq};

// What removing directives name: ranges of identifiers, and tags.
#[derive(Drop)]
pub struct Removals {
    pub ids: Seq<(u32, u32)>,
    pub tags: Seq<Bytes>,
}

impl Removals {
    pub fn none(alloc: Global) -> Removals
        ensures { result ≡ no_removals }
    {
        Removals {
            ids: Seq::new(alloc),
            tags: Seq::new(alloc),
        }
    }

    // With the identifiers and ranges of them that these words are.
    pub fn with_ids(self, alloc: Global, words: &[Bytes]) -> Result<Removals, Refusal>
        ensures { Gives (λ r. r) result (with_ids words.now self) }
    {
        let mut removals = self;
        for word in words {
            let Some(range) = read_id_range(word.as_slice()) else {
                drop(removals);
                return Err(bad_word(alloc, word.as_slice()));
            };
            removals.ids.push(range)?;
        }
        Ok(removals)
    }

    fn names_id(&self, id: u32) -> bool
        ensures { result ≡ names_id self.now.ids id }
    {
        self.ids
            .as_slice()
            .iter()
            .any(|range| range.0 <= id && id <= range.1)
    }

    fn has_tag(&self, tag: &Bytes) -> bool
        ensures { result ≡ list_any (bytes_eq tag.now) self.now.tags }
    {
        self.tags
            .as_slice()
            .iter()
            .any(|removed| tag.as_slice() == removed.as_slice())
    }

    fn names_tag(&self, tags: &[Bytes]) -> bool
        ensures { result ≡ names_tag self.now.tags tags.now }
    {
        tags.iter().any(|tag| self.has_tag(tag))
    }

    fn names(&self, item: &Item) -> bool
        ensures { result ≡ is_removed self.now item.now }
    {
        match item {
            Item::Rule(rule) => self.names_id(rule.id) || self.names_tag(rule.tags.as_slice()),
            Item::Marker(_) => false,
        }
    }

    // The items without the rules that are named.
    pub fn applied(&self, items: Seq<Item>) -> Seq<Item>
        ensures { result ≡ kept self.now items }
    {
        let mut items = items.into_vec();
        items.retain(|item| !self.names(item));
        Seq::from_vec(items)
    }
}
