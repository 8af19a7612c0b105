ghost use Rattle.std.specs.Prelude.{◌≡◌, ◌++◌, OnErr, OnOk, decimal};
ghost use Rattle.sec_ast.specs.Print.{item_text, limit_action, listing_text, setting, settings_text};

use crate::listing::{Item, Listing};
use crate::print_actions::switch_text;
use crate::print_rules::put_rule;
use crate::print_texts::{put_decimal, put_line};
use std::alloc::Global;
use waf_plain::{Bytes, NoMemory};

/// Appends the canonical text of a listing: the five settings, and then a line for each link of a
/// rule and for each marker, in UTF-8 where its texts are. After an `Err` the bytes are as before.
pub fn print_listing(alloc: Global, listing: &Listing, out: &mut Bytes) -> Result<(), NoMemory>
    ensures ok { OnOk result (out.new ≡ out.old ++ listing_text listing.now) }
    ensures err { OnErr result (out.new ≡ out.old) }
{
    let mut text = Bytes::new(alloc);
    put_listing(alloc, listing, &mut text)?;
    out.append(text.as_slice())
}

#[tactic(auto, unfolding(crate::specs::Print::listing_text))]
fn put_listing(alloc: Global, listing: &Listing, out: &mut Bytes) -> Result<(), NoMemory>
    ensures { OnOk result (out.new ≡ out.old ++ listing_text listing.now) }
{
    put_settings(alloc, listing, out)?;
    for item in listing.items.as_slice() {
        put_item(alloc, item, out)?;
    }
    Ok(())
}

fn put_item(alloc: Global, item: &Item, out: &mut Bytes) -> Result<(), NoMemory>
    ensures { OnOk result (out.new ≡ out.old ++ item_text item.now) }
{
    match item {
        Item::Rule(rule) => put_rule(alloc, rule, out),
        Item::Marker(label) => put_line(b"SecMarker", &[label.as_slice()], out),
    }
}

#[tactic(auto, unfolding(crate::specs::Print::settings_text))]
fn put_settings(alloc: Global, listing: &Listing, out: &mut Bytes) -> Result<(), NoMemory>
    ensures { OnOk result (out.new ≡ out.old ++ settings_text listing.now) }
{
    put_setting(b"SecRuleEngine", listing.engine.name(), out)?;
    put_setting(
        b"SecRequestBodyAccess",
        switch_text(listing.request_body),
        out,
    )?;
    put_limit(alloc, b"SecRequestBodyLimit", listing.request_limit, out)?;
    put_setting(
        b"SecRequestBodyLimitAction",
        limit_action(listing.limit_reject),
        out,
    )?;
    put_setting(
        b"SecResponseBodyAccess",
        switch_text(listing.response_body),
        out,
    )
}

fn put_limit(alloc: Global, name: &[u8], limit: u64, out: &mut Bytes) -> Result<(), NoMemory>
    ensures { OnOk result (out.new ≡ out.old ++ setting name.now (decimal limit)) }
{
    let mut digits = Bytes::new(alloc);
    put_decimal(limit, &mut digits)?;
    put_setting(name, digits.as_slice(), out)
}

#[tactic(auto, unfolding(crate::specs::Print::setting))]
fn put_setting(name: &[u8], word: &[u8], out: &mut Bytes) -> Result<(), NoMemory>
    ensures { OnOk result (out.new ≡ out.old ++ setting name.now word.now) }
{
    put_line(name, &[word], out)
}

fn limit_action(is_rejected: bool) -> &'static [u8]
    ensures { result.now ≡ limit_action is_rejected }
{
    if is_rejected {
        b"Reject"
    } else {
        b"ProcessPartial"
    }
}
