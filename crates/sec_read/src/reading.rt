ghost use Rattle.std.specs.Prelude.{◌≡◌};
ghost use Rattle.std.specs.Option.{option_map};
ghost use Rattle.sec_read.specs.Listing.{nothing_read};

use crate::defaults::Defaults;
use crate::items::Items;
use crate::modes::PatternMode;
use crate::removals::Removals;
use crate::settings::Settings;
use sec_ast::Rule;
use std::alloc::Global;

// A rule whose last link so far has `chain`, and that link's line.
#[derive(Drop)]
pub struct Unfinished {
    pub rule: Rule,
    pub line: u32,
}

// What was read so far: the items, a rule that waits for its next link, the defaults of each phase,
// the settings, how patterns are read, what is to be removed, and how many bytes of texts.
#[derive(Drop)]
pub struct Reading {
    pub items: Items,
    pub unfinished: Option<Unfinished>,
    pub defaults: Defaults,
    pub settings: Settings,
    pub mode: PatternMode,
    pub removals: Removals,
    pub total: u64,
}

impl Reading {
    // Nothing yet.
    pub fn nothing(alloc: Global) -> Reading
        ensures { result ≡ nothing_read }
    {
        Reading {
            items: Items::new(alloc),
            unfinished: None,
            defaults: Defaults::first(),
            settings: Settings::first(),
            mode: PatternMode::Unicode,
            removals: Removals::none(alloc),
            total: 0,
        }
    }

    // The line of the link that waits for the next.
    pub fn open_line(&self) -> Option<u32>
        ensures { result ≡ option_map (λ begun. begun.line) self.now.unfinished }
    {
        self.unfinished.as_ref().map(|begun| begun.line)
    }
}
