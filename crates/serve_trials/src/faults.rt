use crate::frames::{ASKS_A1, ASKS_B1, TOLD_B1};
use crate::tally::{Orders, Tally};
use agent_main::agent_main;
use std::alloc::Global;
use std::sync::Wait;
use std::test::Fail;
use std::thread::Threads;
use waf_io::{
    InfallibleFiles, InfallibleSink, MemClock, MemDoors, MemFile, MemLane, MemSink, MemSource,
    ReadSource,
};
use waf_plain::{Bytes, NoMemory, Seq};

const CONF: &[u8] = b"workers = 1\n[[app]]\nname = \"\"\nrules = []\nresponses = true\n";

// The rows of both peers wait for their responses, and none is being judged.
const BOTH_PARKED: &[u8] = b"stats running 0 parked 2\n";

// Calls that fail, counted from 0.
fn only(alloc: Global, call: Option<u64>) -> Result<Seq<u64>, NoMemory> {
    let mut calls = Seq::new(alloc);
    if let Some(call) = call {
        calls.push(call)?;
    }
    Ok(calls)
}

// Serves a peer whose source or sink fails at that call, and then one of whom nothing fails. Answers the status, whether
// the second was told its answer, and what the agent said of its rows after so many writes.
fn serve_after<R: Threads + Wait + Sync>(
    rt: &R,
    alloc: Global,
    read: Option<u64>,
    write: Option<u64>,
    writes: u64,
) -> Result<(u8, bool, bool), NoMemory> {
    let mut peers = Seq::new(alloc);
    let source = MemSource::new(Bytes::copy(alloc, ASKS_A1)?, only(alloc, read)?);
    peers.push((source, MemSink::new(alloc, 256, only(alloc, write)?)?))?;
    let source = MemSource::new(Bytes::copy(alloc, ASKS_B1)?, Seq::new(alloc));
    peers.push((source, MemSink::new(alloc, 256, Seq::new(alloc))?))?;
    let mut lanes = Seq::new(alloc);
    lanes.push(MemLane {
        peers,
        failing: Seq::new(alloc),
    })?;
    let mut doors = MemDoors::new(alloc, lanes, Seq::new(alloc))?;
    let mut words = Seq::new(alloc);
    words.push(Bytes::copy(alloc, b"serve")?)?;
    words.push(Bytes::copy(alloc, b"agent.toml")?)?;
    let mut files = Seq::new(alloc);
    files.push(MemFile {
        name: Bytes::copy(alloc, b"agent.toml")?,
        content: Bytes::copy(alloc, CONF)?,
    })?;
    let mut output = InfallibleSink::new(alloc, 256)?;
    let tally = Tally::new();
    let status = agent_main(
        rt,
        alloc,
        words,
        &mut InfallibleFiles::new(files),
        &mut ReadSource::new(Orders::after(&tally, writes, b"stats\n")),
        &mut output,
        &mut doors,
        &MemClock::new(0),
        &tally,
    );
    let is_told = match doors.returned().first() {
        Some(door) => match door.served().get(1) {
            Some((_, sink)) => sink.bytes() == TOLD_B1,
            None => false,
        },
        None => false,
    };
    Ok((status, is_told, output.bytes() == BOTH_PARKED))
}

// Its HELLO is written, and both answers of the second peer.
#[test]
fn a_peer_that_takes_no_answer_leaves_no_row_running(rt: HostRuntime) -> Result<(), Fail> {
    let served = serve_after(&rt, rt.alloc(), None, Some(1), 3)?;
    assert_eq!(rt; served, (0, true, true));
    Ok(())
}

// Both peers are told both answers, and then the first can't be read.
#[test]
fn a_peer_that_breaks_off_leaves_no_row_running(rt: HostRuntime) -> Result<(), Fail> {
    let served = serve_after(&rt, rt.alloc(), Some(1), None, 4)?;
    assert_eq!(rt; served, (0, true, true));
    Ok(())
}
