ghost use Rattle.std.specs.Prelude.{◌≡◌};
ghost use Rattle.hall.specs.Passes.{IsPassOfHall};

use crate::{HallPass, SharedHall};
use hall_core::{Claim, Entry, Key};
use std::alloc::Global;
use std::sync::Wait;
use std::test::Fail;
use std::thread::{Threads, join};
use waf_plain::{Bytes, NoMemory};

fn key(alloc: Global) -> Result<Key, NoMemory> {
    let app = Bytes::copy(alloc, b"shop")?;
    let id = Bytes::copy(alloc, b"a1")?;
    Ok(Key { app, id })
}

// Whether a row was made, and the number of the ticket that the key has.
fn enters<R: Wait>(
    rt: &R,
    hall: &SharedHall<u64>,
    mut pass: HallPass<u64>,
    key: Key,
) -> (HallPass<u64>, bool, u64)
    requires { IsPassOfHall hall.now pass }
    ensures { IsPassOfHall hall.now result.0 }
{
    match hall.enter(rt, &mut pass, key) {
        Entry::Entered(ticket) => (pass, true, ticket.number),
        Entry::IdInUse(number) => (pass, false, number),
        _ => (pass, false, 0),
    }
}

// Enters and parks 5.
fn parks<R: Wait>(
    rt: &R,
    hall: &SharedHall<u64>,
    mut pass: HallPass<u64>,
    key: Key,
) -> HallPass<u64>
    requires { IsPassOfHall hall.now pass }
    ensures { IsPassOfHall hall.now result }
{
    if let Entry::Entered(ticket) = hall.enter(rt, &mut pass, key) {
        hall.park(rt, &mut pass, ticket, 9, 5);
    }
    pass
}

fn resumes<R: Wait>(
    rt: &R,
    hall: &SharedHall<u64>,
    pass: &mut HallPass<u64>,
    key: Key,
) -> Option<(u64, u64)>
    requires { IsPassOfHall hall.now pass.old }
    ensures { IsPassOfHall hall.now pass.new }
{
    match hall.resume(rt, pass, key) {
        Claim::Resumed { ticket, value } => Some((ticket, value)),
        Claim::NotParked => None,
    }
}

// Two threads enter one key.
fn enter_side_by_side<R: Threads + Wait + Sync>(
    rt: &R,
    alloc: Global,
) -> Result<((bool, u64), (bool, u64)), NoMemory> {
    let left_key = key(alloc)?;
    let right_key = key(alloc)?;
    let (hall, mut first) = SharedHall::new(alloc, 3, 10)?;
    let second = hall.split(alloc, &mut first)?;
    let shared = &hall;
    let ((mut pass, left, left_number), (other, right, right_number)) = join(
        rt,
        || -> (HallPass<u64>, bool, u64)
            requires { IsPassOfHall shared.now first }
            ensures { IsPassOfHall shared.entry.now result.0 }
        { enters(rt, shared, first, left_key) },
        || -> (HallPass<u64>, bool, u64)
            requires { IsPassOfHall shared.now second }
            ensures { IsPassOfHall shared.entry.now result.0 }
        { enters(rt, shared, second, right_key) },
    );
    hall.join(&mut pass, other);
    Ok(((left, left_number), (right, right_number)))
}

// One thread enters and parks while the other enters the key; once they are joined the key is resumed twice.
fn park_and_resume<R: Threads + Wait + Sync>(
    rt: &R,
    alloc: Global,
) -> Result<(Option<(u64, u64)>, Option<(u64, u64)>), NoMemory> {
    let left_key = key(alloc)?;
    let first_key = key(alloc)?;
    let second_key = key(alloc)?;
    let (hall, mut first) = SharedHall::new(alloc, 3, 10)?;
    let second = hall.split(alloc, &mut first)?;
    let shared = &hall;
    let (parked, mut pass) = join(
        rt,
        || -> HallPass<u64>
            requires { IsPassOfHall shared.now first }
            ensures { IsPassOfHall shared.entry.now result }
        { parks(rt, shared, first, left_key) },
        || -> HallPass<u64>
            requires { IsPassOfHall shared.now second }
            ensures { IsPassOfHall shared.entry.now result }
        { counts(rt, shared, second) },
    );
    hall.join(&mut pass, parked);
    let found = resumes(rt, &hall, &mut pass, first_key);
    Ok((found, resumes(rt, &hall, &mut pass, second_key)))
}

fn counts<R: Wait>(rt: &R, hall: &SharedHall<u64>, mut pass: HallPass<u64>) -> HallPass<u64>
    requires { IsPassOfHall hall.now pass }
    ensures { IsPassOfHall hall.now result }
{
    if 0 < hall.shards() {
        let _ = hall.counts(rt, &mut pass, 0);
    }
    pass
}

#[test]
fn one_of_two_enters(rt: HostRuntime) -> Result<(), Fail> {
    let (left, right) = enter_side_by_side(&rt, rt.alloc())?;
    assert_eq!(rt; (left.1, right.1), (1, 1));
    assert_eq!(rt; left.0 != right.0, true);
    Ok(())
}

#[test]
fn what_one_parked_another_resumes_once(rt: HostRuntime) -> Result<(), Fail> {
    assert_eq!(rt; park_and_resume(&rt, rt.alloc())?, (Some((1, 5)), None));
    Ok(())
}

fn needs_send<T: Send>() {}

fn needs_sync<T: Sync>() {}

fn crosses_threads<P: Send>() {
    needs_sync::<SharedHall<P>>();
    needs_send::<SharedHall<P>>();
    needs_send::<HallPass<P>>();
}

#[test]
fn a_hall_is_shared_and_a_pass_is_sent(_rt: HostRuntime) {
    crosses_threads::<u64>();
}
