ghost use Rattle.std.specs.Prelude.{◌≡◌, false, IfOk, OnOk};
ghost use Rattle.sec_meaning.specs.Links.{after_link, after_links, reached};

use crate::PlainState;
use crate::actions::{act, act_on_each};
use crate::matching::matches;
use sec_ast::Link;
use std::alloc::Global;
use waf_plain::NoMemory;

fn after_link(alloc: Global, link: &Link, state: &mut PlainState) -> Result<bool, NoMemory>
    ensures after { IfOk result (λ holds. reached holds state.new ≡ after_link link.now state.old) }
    ensures stays { IfOk result (λ holds. holds ≡ false → state.new ≡ state.old) }
{
    if link.always {
        act(alloc, link, state)?;
        return Ok(true);
    }
    let rows = matches(alloc, link, state)?;
    act_on_each(alloc, link, rows.into_vec(), state)
}

/// Whether each link holds.
pub(crate) fn after_links(
    alloc: Global,
    links: &[Link],
    state: &mut PlainState,
) -> Result<bool, NoMemory>
    ensures holds { IfOk result (λ holds. holds ≡ (after_links links.now state.old).0) }
    ensures state { OnOk result (state.new ≡ (after_links links.now state.old).1) }
{
    for link in links {
        if !after_link(alloc, link, state)? {
            return Ok(false);
        }
    }
    Ok(true)
}
