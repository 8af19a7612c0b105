// Sources, sinks and files in memory, and std's readers and writers behind them.
use std::alloc::Global;
use std::test::Fail;
use waf_io::{
    FileAnswer, Files, Got, InfallibleFiles, InfallibleSink, InfallibleSource, MemFile, MemFiles,
    MemSink, MemSource, ReadSource, Sink, Source, Took, WriteSink, Wrote, write_whole,
};
use waf_plain::{Bytes, NoMemory, Seq};

fn numbers(alloc: Global, numbers: &[u64]) -> Result<Seq<u64>, NoMemory> {
    let mut list = Seq::new(alloc);
    for number in numbers {
        list.push(*number)?;
    }
    Ok(list)
}

// What four reads of at most three bytes give.
fn reads<S: Source>(source: &mut S) -> [Got; 4] {
    let mut buffer = [0u8; 3];
    let mut gots = [Got::Failed; 4];
    for got in &mut gots {
        *got = source.read(&mut buffer);
    }
    gots
}

#[test]
fn sources(rt: HostRuntime) -> Result<(), Fail> {
    let alloc = rt.alloc();
    let bytes = Bytes::copy(alloc, b"frame")?;
    let all = [Got::Bytes(3), Got::Bytes(2), Got::End, Got::End];
    let some = [Got::Bytes(3), Got::Failed, Got::Bytes(2), Got::Failed];
    let mut failing = MemSource::new(bytes.clone()?, numbers(alloc, &[1, 3])?);
    assert_eq!(rt; reads(&mut InfallibleSource::new(bytes.clone()?)), all);
    assert_eq!(rt; reads(&mut failing), some);
    assert_eq!(rt; reads(&mut ReadSource::new(bytes.as_slice())), all);
    Ok(())
}

// Three pieces of two bytes: the second fails, or, below, there is room for two pieces alone.
#[test]
fn sinks_that_fail(rt: HostRuntime) -> Result<(), Fail> {
    let alloc = rt.alloc();
    let mut failing = MemSink::new(alloc, 8, numbers(alloc, &[1])?)?;
    assert_eq!(rt; write_whole(&mut failing, b"ab"), Wrote::All);
    assert_eq!(rt; write_whole(&mut failing, b"cd"), Wrote::Failed);
    assert_eq!(rt; write_whole(&mut failing, b"ef"), Wrote::All);
    assert_eq!(rt; failing.bytes(), b"abef".as_slice());
    Ok(())
}

#[test]
fn small_sinks(rt: HostRuntime) -> Result<(), Fail> {
    let mut small = InfallibleSink::new(rt.alloc(), 4)?;
    assert_eq!(rt; small.write(b"ab"), Took::Bytes(2));
    assert_eq!(rt; small.write(b"cd"), Took::Bytes(2));
    assert_eq!(rt; small.bytes(), b"abcd".as_slice());
    assert_eq!(rt; small.write(b"ef"), Took::Bytes(2));
    Ok(())
}

#[test]
fn writers(rt: HostRuntime) -> Result<(), Fail> {
    let mut written = Vec::new(rt.alloc());
    let mut sink = WriteSink::new(&mut written);
    assert_eq!(rt; write_whole(&mut sink, b"ab"), Wrote::All);
    assert_eq!(rt; write_whole(&mut sink, b"cd"), Wrote::All);
    assert_eq!(rt; written.as_slice(), b"abcd".as_slice());
    let mut room = [0u8; 3];
    let mut sink = WriteSink::new(room.as_mut_slice());
    assert_eq!(rt; write_whole(&mut sink, b"abcd"), Wrote::Failed);
    assert_eq!(rt; room, *b"abc");
    Ok(())
}

fn one_file(alloc: Global) -> Result<Seq<MemFile>, NoMemory> {
    let mut files = Seq::new(alloc);
    files.push(MemFile {
        name: Bytes::copy(alloc, b"rules")?,
        content: Bytes::copy(alloc, b"text")?,
    })?;
    Ok(files)
}

fn content(alloc: Global, bytes: &[u8]) -> Result<FileAnswer, NoMemory> {
    Ok(FileAnswer::Content(Bytes::copy(alloc, bytes)?))
}

// Whether two answers are the same.
fn same(a: &FileAnswer, b: &FileAnswer) -> bool {
    match (a, b) {
        (FileAnswer::Content(a), FileAnswer::Content(b)) => a == b,
        (FileAnswer::Absent, FileAnswer::Absent) => true,
        (FileAnswer::TooLong, FileAnswer::TooLong) => true,
        (FileAnswer::Failed, FileAnswer::Failed) => true,
        _ => false,
    }
}

#[test]
fn files(rt: HostRuntime) -> Result<(), Fail> {
    let alloc = rt.alloc();
    let text = content(alloc, b"text")?;
    let mut all = InfallibleFiles::new(one_file(alloc)?);
    assert!(rt; same(&all.read_file(alloc, b"rules", 4), &text));
    assert!(rt; same(&all.read_file(alloc, b"rules", 3), &FileAnswer::TooLong));
    assert!(rt; same(&all.read_file(alloc, b"rule", 4), &FileAnswer::Absent));
    Ok(())
}

#[test]
fn files_that_fail(rt: HostRuntime) -> Result<(), Fail> {
    let alloc = rt.alloc();
    let text = content(alloc, b"text")?;
    let mut failing = MemFiles::new(one_file(alloc)?, numbers(alloc, &[0])?);
    assert!(rt; same(&failing.read_file(alloc, b"rules", 4), &FileAnswer::Failed));
    assert!(rt; same(&failing.read_file(alloc, b"rules", 4), &text));
    Ok(())
}
