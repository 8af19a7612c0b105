ghost use Rattle.std.specs.Prelude.{◌≡◌, ◌+◌};
ghost use Rattle.publish_count.specs.Count.{IsTallyOf, count_of, share_of};

use crate::{PublishCount, Tally};
use std::test::Fail;
use std::thread::{Threads, join};

fn needs_sync<T: Sync>() {}

fn needs_send<T: Send>() {}

#[test]
fn the_count_and_its_tallies_cross_threads() {
    needs_sync::<PublishCount>();
    needs_send::<PublishCount>();
    needs_send::<Tally>();
}

#[test]
fn a_glance_finds_what_was_added(rt: HostRuntime) -> Result<(), Fail> {
    let (count, mut tally) = PublishCount::new(rt.alloc())?;
    assert_eq!(rt; count.glance(&mut tally), 1);
    let mut other = count.split(&mut tally);
    count.add(&mut other);
    count.add(&mut tally);
    count.add(&mut tally);
    assert_eq!(rt; count.glance(&mut other), 4);
    count.take_back(&mut tally);
    count.join(&mut tally, other);
    assert_eq!(rt; count.glance(&mut tally), 3);
    Ok(())
}

// Adds three, and takes one of them back.
fn add_two(count: &PublishCount, tally: Tally) -> Tally
    requires { IsTallyOf count.now tally }
    ensures count { IsTallyOf count.now result }
    ensures added { count_of result ≡ count_of tally + 2 }
    ensures share { share_of result ≡ share_of tally }
{
    let mut tally = tally;
    count.add(&mut tally);
    count.add(&mut tally);
    count.take_back(&mut tally);
    count.add(&mut tally);
    tally
}

#[test]
fn two_threads_count_side_by_side(rt: HostRuntime) -> Result<(), Fail> {
    let (count, tally) = PublishCount::new(rt.alloc())?;
    let mut first = tally;
    let second = count.split(&mut first);
    let shared = &count;
    let (mut tally, other) = join(
        &rt,
        || -> Tally
            requires { IsTallyOf shared.now first }
            ensures { IsTallyOf shared.entry.now result }
        { add_two(shared, first) },
        || -> Tally
            requires { IsTallyOf shared.now second }
            ensures { IsTallyOf shared.entry.now result }
        { add_two(shared, second) },
    );
    count.join(&mut tally, other);
    assert_eq!(rt; count.glance(&mut tally), 5);
    Ok(())
}
