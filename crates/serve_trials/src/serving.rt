use crate::frames::{
    ASKS_A1, ASKS_B1, ASKS_B1_AND_ANSWERS_A1, GARBLED, POSTS, TOLD_A1, TOLD_B1, TOLD_B1_AND_A1,
    TOLD_DENIED, TOLD_GARBLED,
};
use crate::turnstile::Turnstile;
use agent_main::agent_main;
use std::alloc::Global;
use std::sync::Wait;
use std::test::Fail;
use std::thread::Threads;
use waf_io::{
    InfallibleFiles, InfallibleSink, InfallibleSource, MemClock, MemDoors, MemFile, MemLane,
};
use waf_plain::{Bytes, NoMemory, Seq};

const CONF: &[u8] = b"workers = 2\n[[app]]\nname = \"\"\nrules = [\"rules\"]\nresponses = true\n";

const RULES: &[u8] = b"SecRule REQUEST_METHOD \"@streq POST\" \"id:100,phase:1,deny\"\n";

type Lane = MemLane<InfallibleSource, InfallibleSink>;

// The peers of a door, each with what it sends.
fn lane(alloc: Global, peers: &[&[u8]], failing: Seq<u64>) -> Result<Lane, NoMemory> {
    let mut seq = Seq::new(alloc);
    for sends in peers {
        let source = InfallibleSource::new(Bytes::copy(alloc, sends)?);
        seq.push((source, InfallibleSink::new(alloc, 256)?))?;
    }
    Ok(MemLane {
        peers: seq,
        failing,
    })
}

fn file(alloc: Global, name: &[u8], content: &[u8]) -> Result<MemFile, NoMemory> {
    Ok(MemFile {
        name: Bytes::copy(alloc, name)?,
        content: Bytes::copy(alloc, content)?,
    })
}

// Runs `serve` with two workers, whose input has ended, over the peers of two doors.
fn serve_both<R: Threads + Wait + Sync>(
    rt: &R,
    alloc: Global,
    gate: &Turnstile,
    first: Lane,
    second: Lane,
) -> Result<(u8, MemDoors<InfallibleSource, InfallibleSink>), NoMemory> {
    let mut words = Seq::new(alloc);
    words.push(Bytes::copy(alloc, b"serve")?)?;
    words.push(Bytes::copy(alloc, b"agent.toml")?)?;
    let mut files = Seq::new(alloc);
    files.push(file(alloc, b"agent.toml", CONF)?)?;
    files.push(file(alloc, b"rules", RULES)?)?;
    let mut files = InfallibleFiles::new(files);
    let mut lanes = Seq::new(alloc);
    lanes.push(first)?;
    lanes.push(second)?;
    let mut doors = MemDoors::new(alloc, lanes, Seq::new(alloc))?;
    let mut input = InfallibleSource::new(Bytes::new(alloc));
    let mut output = InfallibleSink::new(alloc, 256)?;
    let status = agent_main(
        rt,
        alloc,
        words,
        &mut files,
        &mut input,
        &mut output,
        &mut doors,
        &MemClock::new(0),
        gate,
    );
    Ok((status, doors))
}

// Whether the peer at that place of that door was told this.
fn is_told(
    doors: &MemDoors<InfallibleSource, InfallibleSink>,
    door: usize,
    peer: usize,
    wanted: &[u8],
) -> bool {
    match doors.returned().get(door) {
        Some(door) => match door.served().get(peer) {
            Some((_, sink)) => sink.bytes() == wanted,
            None => false,
        },
        None => false,
    }
}

#[test]
fn two_workers_serve_at_once(rt: HostRuntime) -> Result<(), Fail> {
    let alloc = rt.alloc();
    let gate = Turnstile::new(0);
    let first = lane(alloc, &[ASKS_A1], Seq::new(alloc))?;
    let second = lane(alloc, &[ASKS_B1], Seq::new(alloc))?;
    let (status, doors) = serve_both(&rt, alloc, &gate, first, second)?;
    assert_eq!(rt; status, 0);
    assert!(rt; !gate.is_used_up());
    assert!(rt; is_told(&doors, 0, 0, TOLD_A1));
    assert!(rt; is_told(&doors, 1, 0, TOLD_B1));
    Ok(())
}

#[test]
fn one_connection_answers_for_another(rt: HostRuntime) -> Result<(), Fail> {
    let alloc = rt.alloc();
    let gate = Turnstile::new(1);
    let first = lane(alloc, &[ASKS_A1], Seq::new(alloc))?;
    let second = lane(alloc, &[ASKS_B1_AND_ANSWERS_A1], Seq::new(alloc))?;
    let (status, doors) = serve_both(&rt, alloc, &gate, first, second)?;
    assert_eq!(rt; status, 0);
    assert!(rt; !gate.is_used_up());
    assert!(rt; is_told(&doors, 0, 0, TOLD_A1));
    assert!(rt; is_told(&doors, 1, 0, TOLD_B1_AND_A1));
    Ok(())
}

#[test]
fn garbage_ends_its_own_connection_alone(rt: HostRuntime) -> Result<(), Fail> {
    let alloc = rt.alloc();
    let gate = Turnstile::new(2);
    let first = lane(alloc, &[GARBLED, POSTS], Seq::new(alloc))?;
    let second = lane(alloc, &[], Seq::new(alloc))?;
    let (status, doors) = serve_both(&rt, alloc, &gate, first, second)?;
    assert_eq!(rt; status, 0);
    assert!(rt; is_told(&doors, 0, 0, TOLD_GARBLED));
    assert!(rt; is_told(&doors, 0, 1, TOLD_DENIED));
    Ok(())
}

#[test]
fn a_door_that_fails_ends_in_status_7(rt: HostRuntime) -> Result<(), Fail> {
    let alloc = rt.alloc();
    let gate = Turnstile::new(2);
    let mut failing = Seq::new(alloc);
    failing.push(0)?;
    let first = lane(alloc, &[], failing)?;
    let second = lane(alloc, &[ASKS_B1], Seq::new(alloc))?;
    let (status, doors) = serve_both(&rt, alloc, &gate, first, second)?;
    assert_eq!(rt; status, 7);
    assert!(rt; is_told(&doors, 1, 0, TOLD_B1));
    Ok(())
}
