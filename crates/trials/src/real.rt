// Files of the system. Where they are made is the folder for such files, by the runtime.
use std::alloc::Global;
use std::fs;
use std::test::Fail;
use waf_io::{FileAnswer, Files, RealFiles};

// What a reading of at most four bytes answers.
fn reading(alloc: Global, files: &mut impl Files, name: &[u8]) -> &'static str {
    match files.read_file(alloc, name, 4) {
        FileAnswer::Content(bytes) if bytes.as_slice() == b"text".as_slice() => "text",
        FileAnswer::Content(_) => "other text",
        FileAnswer::Absent => "absent",
        FileAnswer::TooLong => "too long",
        FileAnswer::Failed => "failed",
        FileAnswer::NoMemory => "no memory",
    }
}

const SHORT: &str = "/tmp/yefontsila-trial-short";

const LONG: &str = "/tmp/yefontsila-trial-long";

// A name of 300 bytes, which is longer than a file may have.
const ENDLESS: [u8; 300] = [b'n'; 300];

#[test]
fn files_of_the_system(rt: HostRuntime) -> Result<(), Fail> {
    let alloc = rt.alloc();
    fs::write(&rt, SHORT, "text")?;
    fs::write(&rt, LONG, "texts")?;
    let mut files = RealFiles::new(&rt);
    assert_eq!(rt; reading(alloc, &mut files, SHORT.as_bytes()), "text");
    assert_eq!(rt; reading(alloc, &mut files, LONG.as_bytes()), "too long");
    assert_eq!(rt; reading(alloc, &mut files, b"/tmp"), "failed");
    let absent: [&[u8]; 7] = [
        b"/tmp/yefontsila-trial-none",
        b"/tmp/yefontsila-trial-none/short",
        b"/tmp/yefontsila-trial-short/short",
        b"",
        b"/tmp/yefontsila-trial-short\0",
        b"\xff",
        &ENDLESS,
    ];
    for name in absent {
        assert_eq!(rt; reading(alloc, &mut files, name), "absent", "{name:?}");
    }
    fs::remove_file(&rt, SHORT)?;
    fs::remove_file(&rt, LONG)?;
    Ok(())
}
