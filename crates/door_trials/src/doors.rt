// Doors in memory and over TCP, and what crosses threads.
use std::alloc::Global;
use std::io::{Read, Write};
use std::net::TcpStream;
use std::test::Fail;
use waf_io::{
    Came, Door, Doors, Got, InfallibleDoor, InfallibleSink, InfallibleSource, MemClock, MemDoor,
    MemDoors, MemLane, MemSink, MemSource, OpenGate, Opened, RealClock, Sink, Source, TcpDoor,
    TcpDoors, Took,
};
use waf_plain::{Bytes, NoMemory, Seq};

fn needs_send<T: Send>() {}

fn needs_sync<T: Sync>() {}

#[test]
fn doors_cross_threads_and_clocks_are_shared() {
    needs_send::<InfallibleDoor<InfallibleSource, InfallibleSink>>();
    needs_send::<MemDoor<MemSource, MemSink>>();
    needs_send::<TcpDoor>();
    needs_sync::<MemClock>();
    needs_sync::<RealClock<HostRuntime>>();
    needs_sync::<OpenGate>();
}

// The lane of a door before one peer that sends one byte. The second call of its door fails.
fn lane(alloc: Global) -> Result<MemLane<InfallibleSource, InfallibleSink>, NoMemory> {
    let source = InfallibleSource::new(Bytes::copy(alloc, b"a")?);
    let sink = InfallibleSink::new(alloc, 8)?;
    let mut peers = Seq::new(alloc);
    peers.push((source, sink))?;
    let mut failing = Seq::new(alloc);
    failing.push(1)?;
    Ok(MemLane { peers, failing })
}

#[test]
fn a_door_in_memory(rt: HostRuntime) -> Result<(), Fail> {
    let alloc = rt.alloc();
    let MemLane { peers, failing } = lane(alloc)?;
    let mut door = MemDoor::new(alloc, peers, failing)?;
    let Came::Peer(source, mut sink) = door.next(&rt) else {
        return Err(Fail::new("no peer"));
    };
    assert_eq!(rt; sink.write(b"yes"), Took::Bytes(3));
    door.back(source, sink);
    assert!(rt; matches!(door.next(&rt), Came::Failed));
    assert!(rt; matches!(door.next(&rt), Came::Closed));
    assert_eq!(rt; door.served().len(), 1);
    Ok(())
}

#[test]
fn doors_in_memory(rt: HostRuntime) -> Result<(), Fail> {
    let alloc = rt.alloc();
    let mut lanes = Seq::new(alloc);
    lanes.push(lane(alloc)?)?;
    let mut failing = Seq::new(alloc);
    failing.push(1)?;
    let mut doors = MemDoors::new(alloc, lanes, failing)?;
    let Opened::Doors(opened) = doors.open_doors(alloc, b"here", 2) else {
        return Err(Fail::new("no doors"));
    };
    assert_eq!(rt; opened.len(), 2);
    assert!(rt; matches!(doors.open_doors(alloc, b"here", 1), Opened::Failed));
    Ok(())
}

#[test]
fn a_door_over_tcp(rt: HostRuntime) -> Result<(), Fail> {
    let alloc = rt.alloc();
    let mut doors = TcpDoors::new(&rt);
    let Opened::Doors(opened) = doors.open_doors(alloc, b"127.0.0.1:0", 1) else {
        return Err(Fail::new("no doors"));
    };
    let (Some(mut door), Some(address)) = (opened.into_vec().pop(), doors.address()) else {
        return Err(Fail::new("no address"));
    };
    let mut client = TcpStream::connect(&rt, address)?;
    client.write(b"x")?;
    let Came::Peer(mut source, mut sink) = door.next(&rt) else {
        return Err(Fail::new("no peer"));
    };
    let mut buffer = [0u8; 4];
    assert_eq!(rt; source.read(&mut buffer), Got::Bytes(1));
    assert_eq!(rt; sink.write(b"yes"), Took::Bytes(3));
    door.back(source, sink);
    assert_eq!(rt; client.read(&mut buffer)?, 3);
    doors.shut();
    assert!(rt; matches!(door.next(&rt), Came::Closed));
    Ok(())
}
