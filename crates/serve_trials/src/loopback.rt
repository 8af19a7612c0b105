use crate::caller::Caller;
use crate::frames::{ASKS_A1, TOLD_A1};
use agent_main::agent_main;
use std::alloc::Global;
use std::net::{Net, TcpListener, TcpStream};
use std::sync::Wait;
use std::sync::atomic::{AtomicBool, Ordering};
use std::test::Fail;
use std::thread::Threads;
use std::time::Clock;
use waf_io::{InfallibleFiles, InfallibleSink, MemFile, OpenGate, ReadSource, RealClock, TcpDoors};
use waf_plain::{Bytes, NoMemory, Seq};

// The status of doors that can't be opened, as where another program has the port.
const DOOR_FAULT: u8 = 7;

// Where the agent may listen, and its configuration for that.
const PLACES: [(&str, &[u8]); 4] = [
    (
        "127.0.0.1:20471",
        b"listen = \"127.0.0.1:20471\"\n[[app]]\nname = \"\"\nrules = []\n",
    ),
    (
        "127.0.0.1:20472",
        b"listen = \"127.0.0.1:20472\"\n[[app]]\nname = \"\"\nrules = []\n",
    ),
    (
        "127.0.0.1:20473",
        b"listen = \"127.0.0.1:20473\"\n[[app]]\nname = \"\"\nrules = []\n",
    ),
    (
        "127.0.0.1:20474",
        b"listen = \"127.0.0.1:20474\"\n[[app]]\nname = \"\"\nrules = []\n",
    ),
];

// Runs `serve` over sockets until one peer was served. Answers its status, and whether that peer was told what it wanted.
fn serve_one<R: Threads + Wait + Sync + Clock + Net<Listener = TcpListener, Stream = TcpStream>>(
    rt: &R,
    alloc: Global,
    address: &str,
    conf: &[u8],
) -> Result<(u8, bool), NoMemory> {
    let mut words = Seq::new(alloc);
    words.push(Bytes::copy(alloc, b"serve")?)?;
    words.push(Bytes::copy(alloc, b"agent.toml")?)?;
    let mut files = Seq::new(alloc);
    files.push(MemFile {
        name: Bytes::copy(alloc, b"agent.toml")?,
        content: Bytes::copy(alloc, conf)?,
    })?;
    let is_told = AtomicBool::new(false);
    let caller = Caller {
        rt,
        alloc,
        address,
        sends: ASKS_A1,
        wanted: TOLD_A1,
        is_told: &is_told,
    };
    let status = agent_main(
        rt,
        alloc,
        words,
        &mut InfallibleFiles::new(files),
        &mut ReadSource::new(caller),
        &mut InfallibleSink::new(alloc, 256)?,
        &mut TcpDoors::new(rt),
        &RealClock::new(rt),
        &OpenGate,
    );
    Ok((status, is_told.load(Ordering::SeqCst)))
}

#[test]
fn a_peer_is_served_over_the_loopback(rt: HostRuntime) -> Result<(), Fail> {
    let mut served = (DOOR_FAULT, false);
    for (address, conf) in PLACES {
        if served.0 == DOOR_FAULT {
            served = serve_one(&rt, rt.alloc(), address, conf)?;
        }
    }
    assert_eq!(rt; served, (0, true));
    Ok(())
}
