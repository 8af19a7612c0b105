//! The tree over the places, whose inner nodes keep what is due first below them.
ghost use Rattle.std.specs.Prelude.{◌≡◌, ◌<◌, ◌≤◌, ◌+◌, ◌/◌, OnSome, length, slice_set};
ghost use Rattle.due_index.specs.Due.{held_at};
ghost use Rattle.due_index.specs.Tree.{Fits, IsSettled, IsSettledBut, below, leaf, most_places, node};

use crate::Due;
use crate::order::sooner;

/// Changes what a place holds.
pub(crate) fn put(
    held: &mut Vec<Option<(u64, u64)>>,
    firsts: &mut Vec<Option<Due>>,
    place: usize,
    value: Option<(u64, u64)>,
)
    requires within { place < length held.old.items }
    requires fits { Fits held.old.items firsts.old.items }
    requires settled { IsSettled held.old.items firsts.old.items }
    ensures held { held.new.items ≡ slice_set held.old.items place value }
    ensures fits { Fits held.new.items firsts.new.items }
    ensures settled { IsSettled held.new.items firsts.new.items }
{
    held[place] = value;
    climb(held, firsts, place);
}

// Settles the nodes above a place, from the lowest one up to the root.
fn climb(held: &[Option<(u64, u64)>], firsts: &mut Vec<Option<Due>>, place: usize)
    requires fits { Fits held.now firsts.old.items }
    requires within { place < length held.now }
    requires rest { IsSettledBut held.now firsts.old.items ((length held.now + place) / 2) }
    ensures fits { Fits held.now firsts.new.items }
    ensures settled { IsSettled held.now firsts.new.items }
{
    let mut at = (held.len() + place) / 2;
    while at > 0 {
        firsts[at] = below(held, firsts, at);
        at /= 2;
    }
}

fn below(held: &[Option<(u64, u64)>], firsts: &[Option<Due>], at: usize) -> Option<Due>
    requires fits { Fits held.now firsts.now }
    requires inner { at < length held.now }
    ensures { result ≡ below held.now firsts.now at }
{
    sooner(node(held, firsts, 2 * at), node(held, firsts, 2 * at + 1))
}

/// What stands at a node.
pub(crate) fn node(held: &[Option<(u64, u64)>], firsts: &[Option<Due>], at: usize) -> Option<Due>
    requires { Fits held.now firsts.now }
    ensures { result ≡ node held.now firsts.now at }
{
    if at < held.len() {
        firsts[at]
    } else {
        leaf(held, at - held.len())
    }
}

fn leaf(held: &[Option<(u64, u64)>], place: usize) -> Option<Due>
    requires { length held.now ≤ most_places }
    ensures { result ≡ leaf held.now place }
{
    let (deadline, ticket) = held_at(held, place)?;
    Some((deadline, ticket, place as u32))
}

/// What a place holds.
pub(crate) fn held_at(held: &[Option<(u64, u64)>], place: usize) -> Option<(u64, u64)>
    ensures held { result ≡ held_at held.now place }
    ensures within { OnSome result (place < length held.now) }
{
    if place < held.len() {
        held[place]
    } else {
        None
    }
}
