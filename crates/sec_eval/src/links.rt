ghost use Rattle.std.specs.Prelude.{◌≡◌, false, map, IfOk, OnOk};
ghost use Rattle.sec_compile.specs.Links.{built_link};
ghost use Rattle.sec_meaning.specs.Links.{after_link, after_links, reached};

use crate::State;
use crate::askers::LinkAsker;
use crate::matching::matches;
use sec_ast::Link;
use sec_meaning::{act, act_on_each};
use std::alloc::Global;
use waf_plain::NoMemory;

fn after_link(
    alloc: Global,
    link: &Link,
    asker: &mut LinkAsker<'_>,
    state: &mut State,
) -> Result<bool, NoMemory>
    requires { asker.old ≡ built_link link.now }
    ensures after { IfOk result (λ holds. reached holds state.new ≡ after_link link.now state.old) }
    ensures stays { IfOk result (λ holds. holds ≡ false → state.new ≡ state.old) }
    ensures same { asker.new ≡ asker.old }
{
    if link.always {
        act(alloc, link, state)?;
        return Ok(true);
    }
    let rows = matches(alloc, state.vars(), link, asker)?;
    act_on_each(alloc, link, rows.into_vec(), state)
}

/// Whether each link holds, of which these are the askers.
pub(crate) fn after_links(
    alloc: Global,
    links: &[Link],
    askers: &mut [LinkAsker<'_>],
    state: &mut State,
) -> Result<bool, NoMemory>
    requires { askers.old ≡ map built_link links.now }
    ensures holds { IfOk result (λ holds. holds ≡ (after_links links.now state.old).0) }
    ensures state { OnOk result (state.new ≡ (after_links links.now state.old).1) }
    ensures same { askers.new ≡ askers.old }
{
    let mut place = 0;
    for link in links {
        let asker = &mut askers[place];
        if !after_link(alloc, link, asker, state)? {
            return Ok(false);
        }
        place += 1;
    }
    Ok(true)
}
