//! The agent: `agent_main` over the system's words, files, input, output, sockets and clock.
#![tactic(auto)]

use agent_main::agent_main;
use std::env;
use std::io::ErrorKind;
use std::process::ExitCode;
use waf_io::{OpenGate, ReadSource, RealClock, RealFiles, TcpDoors, WriteSink};
use waf_plain::{Bytes, NoMemory, Seq};

fn main(rt: HostRuntime) -> ExitCode {
    let Ok(words) = words(&rt) else {
        return ExitCode::from(6);
    };
    let mut files = RealFiles::new(&rt);
    let mut input = ReadSource::new(rt.reader());
    let mut output = WriteSink::new(std::io::writer(&rt));
    let mut doors = TcpDoors::new(&rt);
    let clock = RealClock::new(&rt);
    ExitCode::from(agent_main(
        &rt,
        rt.alloc(),
        words,
        &mut files,
        &mut input,
        &mut output,
        &mut doors,
        &clock,
        &OpenGate,
    ))
}

// The words after the program's name. Where one of them is not UTF-8 there are none, which no command takes.
fn words(rt: &HostRuntime) -> Result<Seq<Bytes>, NoMemory> {
    let mut words = Seq::new(rt.alloc());
    let args = match env::args(rt) {
        Ok(args) => args,
        Err(error) if error.kind() == ErrorKind::OutOfMemory => return Err(NoMemory),
        Err(_) => return Ok(words),
    };
    for word in args.skip(1) {
        words.push(Bytes::copy(rt.alloc(), word.as_bytes())?)?;
    }
    Ok(words)
}
