ghost use Rattle.std.specs.Prelude.{◌≡◌, None, map, IfErr, IfOk, OnOk};
ghost use Rattle.sec_compile.specs.Links.{built_links};
ghost use Rattle.sec_compile.specs.Unread.{IsFault, first_fault};

use crate::{BuiltLink, CompileFault, build_items};
use sec_ast::Listing;
use std::alloc::Global;
use std::marker::Model;
use waf_plain::Seq;

/// A listing, ready to judge requests. Contracts see it as the listing.
#[derive(Drop)]
pub struct Ruleset {
    listing: Listing,
    built: Seq<Seq<BuiltLink>>,
}

impl Model for Ruleset {
    ghost use Rattle.std.specs.Prelude.{◌≡◌, map};
    ghost use Rattle.sec_ast.specs.declared.listing.Listing.{Listing};
    ghost use Rattle.sec_compile.specs.Links.{built_links};

    ghost Value = { Listing };

    ghost view = { λ s. s.listing };

    ghost invariant = { λ s. s.built ≡ map built_links s.listing.items };
}

/// Compiles a listing. It is refused for the first rule, in the listing's order, that has a pattern
/// without a reading.
pub fn compile(alloc: Global, listing: Listing) -> Result<Ruleset, CompileFault>
    ensures ok { IfOk result (λ rules. rules ≡ listing) }
    ensures read { OnOk result (first_fault listing.items ≡ None) }
    ensures bad { IfErr result (λ fault. IsFault fault (first_fault listing.items)) }
{
    let built = build_items(alloc, listing.items.as_slice())?;
    Ok(Ruleset { listing, built })
}

impl Ruleset {
    /// The listing that was compiled.
    pub fn listing(&self) -> &Listing
        ensures { result.now ≡ self.now }
    {
        &self.listing
    }

    /// What is built of the links of each item, in the order of the listing's items.
    pub fn built(&self) -> &[Seq<BuiltLink>]
        ensures { result.now ≡ map built_links self.now.items }
    {
        self.built.as_slice()
    }
}
