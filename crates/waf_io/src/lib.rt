//! The outside as the agent sees it: bytes that are read, bytes that are written, and files by name.
//! Each kind counts its faults, and a call fails only where that count rose. What lies in memory also
//! tells its content to contracts; what lies outside the process tells nothing, and is trusted.
//!
//! `write_whole(&mut sink, bytes)` writes all bytes, or stops at the first fault. What a read, a write and a
//! reading of a file mean stands in `specs/Source.antt`, `specs/Sink.antt` and `specs/Files.antt`.
#![tactic(auto)]

mod clock;
mod door;
mod doors;
mod files;
mod gate;
mod mem_clock;
mod mem_door;
mod mem_doors;
mod mem_files;
mod mem_sink;
mod mem_source;
mod real;
mod real_clock;
mod schedule;
mod sink;
mod source;
mod stock;
mod tcp_door;
mod tcp_doors;

pub use clock::Clock;
pub use door::{Came, Door};
pub use doors::{Doors, Opened};
pub use files::{FileAnswer, Files};
pub use gate::{Gate, OpenGate, Point};
pub use mem_clock::MemClock;
pub use mem_door::{InfallibleDoor, MemDoor};
pub use mem_doors::{InfallibleDoors, MemDoors, MemLane};
pub use mem_files::{InfallibleFiles, MemFile, MemFiles};
pub use mem_sink::{InfallibleSink, MemSink};
pub use mem_source::{InfallibleSource, MemSource};
pub use real::{ReadSource, RealFiles, WriteSink};
pub use real_clock::RealClock;
pub use sink::{Sink, Took, Wrote, write_whole};
pub use source::{Got, Source};
pub use tcp_door::{TcpDoor, TcpSink, TcpSource};
pub use tcp_doors::TcpDoors;
