// A file that can't be read once, and a second reading of the same files.
use sec_read::{Fault, Kind, read_rules};
use std::alloc::Global;
use std::test::Fail;
use waf_io::{MemFile, MemFiles};
use waf_plain::{Bytes, NoMemory, Seq};

const NAME: &[u8] = b"rules/main.conf";

const FILES: [(&[u8], &[u8]); 2] = [
    (
        NAME,
        b"# words\nSecRule ARGS \"@pmFromFile words.data\" id:1,phase:2,deny\n",
    ),
    (b"rules/words.data", b"select\nunion\n"),
];

// The second call fails: that of the first reading for the words.
fn files(alloc: Global) -> Result<MemFiles, NoMemory> {
    let mut files = Seq::new(alloc);
    for (name, content) in FILES {
        files.push(MemFile {
            name: Bytes::copy(alloc, name)?,
            content: Bytes::copy(alloc, content)?,
        })?;
    }
    let mut failing = Seq::new(alloc);
    failing.push(1)?;
    Ok(MemFiles::new(files, failing))
}

// That of the directive that names the words, and its word for them.
fn place(alloc: Global) -> Result<Fault, NoMemory> {
    Ok(Fault {
        file: Bytes::copy(alloc, NAME)?,
        line: 2,
        kind: Kind::ReadFault,
        word: Bytes::copy(alloc, b"words.data")?,
    })
}

#[test]
fn failed_read_and_the_next(rt: HostRuntime) -> Result<(), Fail> {
    let alloc = rt.alloc();
    let mut files = files(alloc)?;
    let first = read_rules(alloc, NAME, &mut files);
    assert_eq!(rt; first.err(), Some(place(alloc)?));
    let second = read_rules(alloc, NAME, &mut files);
    assert_eq!(rt; second.err(), None);
    Ok(())
}
