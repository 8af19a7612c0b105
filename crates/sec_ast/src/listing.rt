ghost use Rattle.std.specs.Prelude.{◌≡◌};

use crate::rule::Rule;
use crate::settings::Engine;
use std::alloc::AllocError;
use waf_plain::{Bytes, Seq};

/// What stands in a listing.
#[derive(Debug, PartialEq, Drop)]
pub enum Item {
    /// `SecRule` or `SecAction`, with the further directives of its chain.
    Rule(Rule),
    /// `SecMarker`: a label to which a rule can skip.
    Marker(Bytes),
}

impl Clone for Item {
    ghost is_clone = { λ a b. b ≡ a };

    fn clone(&self) -> Result<Item, AllocError> {
        match self {
            Item::Rule(rule) => Ok(Item::Rule(rule.clone()?)),
            Item::Marker(label) => Ok(Item::Marker(label.clone()?)),
        }
    }
}

/// The rules of an application in reading order, and the settings that hold for all of them:
/// whether bodies of requests and of responses are read, how many bytes of a request's body are, and
/// whether a longer body is rejected.
#[derive(Debug, PartialEq, Drop)]
pub struct Listing {
    pub items: Seq<Item>,
    pub engine: Engine,
    pub request_body: bool,
    pub request_limit: u64,
    pub limit_reject: bool,
    pub response_body: bool,
}

impl Clone for Listing {
    ghost is_clone = { λ a b. b ≡ a };

    fn clone(&self) -> Result<Listing, AllocError> {
        let items = self.items.clone()?;
        Ok(Listing {
            items,
            engine: self.engine,
            request_body: self.request_body,
            request_limit: self.request_limit,
            limit_reject: self.limit_reject,
            response_body: self.response_body,
        })
    }
}
