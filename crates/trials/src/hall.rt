// The table of transactions, as one thread calls it.
use hall_core::{Call, Claim, Entry, Expiry, Hall, Key, Reply, shard_of};
use std::alloc::Global;
use std::test::Fail;
use waf_plain::{Bytes, NoMemory};

fn key(alloc: Global, id: &[u8]) -> Result<Key, NoMemory> {
    let app = Bytes::copy(alloc, b"shop")?;
    let id = Bytes::copy(alloc, id)?;
    Ok(Key { app, id })
}

// Enters, and parks at once. The number of its ticket.
fn parks(hall: &mut Hall<u64>, key: Key, deadline: u64, value: u64) -> Option<u64> {
    match hall.enter(key) {
        Entry::Entered(ticket) => {
            let number = ticket.number;
            hall.park(ticket, deadline, value);
            Some(number)
        }
        _ => None,
    }
}

// The number that a key has already, or how many rows there are where there is no room.
fn refused(hall: &mut Hall<u64>, key: Key) -> Option<u64> {
    match hall.enter(key) {
        Entry::IdInUse(number) => Some(number),
        Entry::Full(rows) => Some(rows),
        _ => None,
    }
}

fn resumes(hall: &mut Hall<u64>, key: &Key) -> Option<(u64, u64)> {
    match hall.resume(key) {
        Claim::Resumed { ticket, value } => Some((ticket, value)),
        Claim::NotParked => None,
    }
}

fn expires(hall: &mut Hall<u64>, now: u64) -> Option<(u64, u64)> {
    match hall.expire(now) {
        Expiry::Expired { ticket, value, .. } => Some((ticket, value)),
        Expiry::NothingDue => None,
    }
}

fn counts(hall: &mut Hall<u64>) -> (u64, u64) {
    match hall.act(Call::Count) {
        Reply::OfCount(counts) => (counts.running, counts.parked),
        _ => (0, 0),
    }
}

// Enters, and leaves at once. The rows that run meanwhile, and those after it.
fn leaves(hall: &mut Hall<u64>, key: Key) -> Option<(u64, u64)> {
    match hall.enter(key) {
        Entry::Entered(ticket) => {
            let meanwhile = hall.counts().running;
            hall.leave(ticket);
            Some((meanwhile, hall.counts().running))
        }
        _ => None,
    }
}

// A table for two, with the first key parked until 60 and the second until 50.
fn parked(alloc: Global) -> Result<Hall<u64>, NoMemory> {
    let mut hall = Hall::new(alloc, 0, 2)?;
    parks(&mut hall, key(alloc, b"a1")?, 60, 10);
    parks(&mut hall, key(alloc, b"a2")?, 50, 20);
    Ok(hall)
}

#[test]
fn numbers_and_room(rt: HostRuntime) -> Result<(), Fail> {
    let alloc = rt.alloc();
    let mut hall = Hall::new(alloc, 0, 2)?;
    assert_eq!(rt; leaves(&mut hall, key(alloc, b"a1")?), Some((1, 0)));
    assert_eq!(rt; parks(&mut hall, key(alloc, b"a1")?, 60, 10), Some(2));
    assert_eq!(rt; parks(&mut hall, key(alloc, b"a2")?, 50, 20), Some(3));
    assert_eq!(rt; refused(&mut hall, key(alloc, b"a1")?), Some(2));
    assert_eq!(rt; refused(&mut hall, key(alloc, b"a3")?), Some(2));
    assert_eq!(rt; counts(&mut hall), (0, 2));
    Ok(())
}

#[test]
fn what_is_parked_is_claimed_once(rt: HostRuntime) -> Result<(), Fail> {
    let alloc = rt.alloc();
    let first = key(alloc, b"a1")?;
    let mut hall = parked(alloc)?;
    assert_eq!(rt; resumes(&mut hall, &first), Some((1, 10)));
    assert_eq!(rt; resumes(&mut hall, &first), None);
    assert_eq!(rt; expires(&mut hall, 60), Some((2, 20)));
    assert_eq!(rt; expires(&mut hall, 60), None);
    Ok(())
}

#[test]
fn the_least_deadline_first(rt: HostRuntime) -> Result<(), Fail> {
    let mut hall = parked(rt.alloc())?;
    assert_eq!(rt; expires(&mut hall, 49), None);
    assert_eq!(rt; expires(&mut hall, 60), Some((2, 20)));
    assert_eq!(rt; expires(&mut hall, 60), Some((1, 10)));
    assert_eq!(rt; counts(&mut hall), (0, 0));
    Ok(())
}

// The shard of a key, of four.
fn shard(alloc: Global, app: &[u8], id: &[u8]) -> Result<u32, NoMemory> {
    let app = Bytes::copy(alloc, app)?;
    let id = Bytes::copy(alloc, id)?;
    Ok(shard_of(&Key { app, id }, 4))
}

#[test]
fn keys_have_their_shards(rt: HostRuntime) -> Result<(), Fail> {
    let alloc = rt.alloc();
    assert_eq!(rt; shard(alloc, b"", b"a1")?, 2);
    assert_eq!(rt; shard(alloc, b"", b"a2")?, 3);
    assert_eq!(rt; shard(alloc, b"x", b"a1")?, 2);
    Ok(())
}
