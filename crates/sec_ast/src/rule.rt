ghost use Rattle.std.specs.Prelude.{◌≡◌};

use crate::action::Disrupt;
use crate::link::Link;
use crate::macros::Macro;
use std::alloc::AllocError;
use waf_plain::{Bytes, Seq};

/// Where a rule stands: the file's name as it was opened, and the line, counted from 1.
#[derive(Debug, PartialEq, Drop)]
pub struct Place {
    pub file: Bytes,
    pub line: u32,
}

impl Clone for Place {
    ghost is_clone = { λ a b. b ≡ a };

    fn clone(&self) -> Result<Place, AllocError> {
        let file = self.file.clone()?;
        Ok(Place {
            file,
            line: self.line,
        })
    }
}

/// A rule: `links` is the chain of its directives, the first of which is the rule itself, and it
/// matches where each of them holds. `phase` is 1 to 5. A `status` or a `skip` of 0 means that there
/// is none, and so does an empty `msg` or `logdata`.
#[derive(Debug, PartialEq, Drop)]
pub struct Rule {
    pub id: u32,
    pub phase: u8,
    pub links: Seq<Link>,
    pub disrupt: Disrupt,
    pub status: u32,
    pub log: bool,
    pub msg: Macro,
    pub logdata: Macro,
    pub tags: Seq<Bytes>,
    pub skip: u32,
    pub skip_after: Option<Bytes>,
    pub place: Place,
}

impl Clone for Rule {
    ghost is_clone = { λ a b. b ≡ a };

    fn clone(&self) -> Result<Rule, AllocError> {
        let links = self.links.clone()?;
        let disrupt = self.disrupt.clone()?;
        let msg = self.msg.clone()?;
        let logdata = self.logdata.clone()?;
        let tags = self.tags.clone()?;
        let skip_after = self.skip_after.clone()?;
        let place = self.place.clone()?;
        Ok(Rule {
            id: self.id,
            phase: self.phase,
            links,
            disrupt,
            status: self.status,
            log: self.log,
            msg,
            logdata,
            tags,
            skip: self.skip,
            skip_after,
            place,
        })
    }
}
