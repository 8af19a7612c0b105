// Rule files in one word of a case, and what is told of reading them.

use case_text::{Answer, pieces};
use sec_ast::Listing;
use sec_read::{Fault, read_all, read_rules};
use std::alloc::Global;
use std::mem;
use waf_io::{MemFile, MemFiles};
use waf_plain::{Bytes, NoMemory, Seq};

/// The rules of the file of this name, where the word has it; or `None`, and the fault is told.
pub fn listing_of(alloc: Global, name: &[u8], text: &[u8], out: &mut Answer) -> Option<Listing> {
    match files_of(alloc, name, text) {
        Ok(mut files) => sound(read_rules(alloc, name, &mut files), out),
        Err(NoMemory) => out_of_memory(out),
    }
}

/// The rules of the files of these names, of which what stands before the first `@@` has the name
/// `first`; or `None`, and the fault is told.
pub fn listing_of_all(
    alloc: Global,
    names: &Seq<Bytes>,
    first: &[u8],
    text: &[u8],
    out: &mut Answer,
) -> Option<Listing> {
    match files_of(alloc, first, text) {
        Ok(mut files) => sound(read_all(alloc, names, &mut files), out),
        Err(NoMemory) => out_of_memory(out),
    }
}

fn sound(read: Result<Listing, Fault>, out: &mut Answer) -> Option<Listing> {
    match read {
        Ok(listing) => Some(listing),
        Err(fault) => {
            put_fault(&fault, out);
            None
        }
    }
}

fn out_of_memory(out: &mut Answer) -> Option<Listing> {
    out.no_memory();
    None
}

/// The kind of a fault, its file, its line and its word.
pub fn put_fault(fault: &Fault, out: &mut Answer) {
    out.named(fault.kind.name(), fault.file.as_slice());
    out.number(u64::from(fault.line));
    out.quoted(fault.word.as_slice())
}

// The files of a word, no reading of which fails.
fn files_of(alloc: Global, name: &[u8], text: &[u8]) -> Result<MemFiles, NoMemory> {
    let mut files = Seq::new(alloc);
    add_files(alloc, name, text, &mut files)?;
    Ok(MemFiles::new(files, Seq::new(alloc)))
}

/// Adds the files of a word. A line `@@ NAME` begins the file of that name, and what stands before the
/// first such line is the file that is named here. The line end before `@@` belongs to no file.
pub fn add_files(
    alloc: Global,
    name: &[u8],
    text: &[u8],
    files: &mut Seq<MemFile>,
) -> Result<(), NoMemory> {
    let lines = pieces(alloc, text, b'\n')?;
    let mut file = empty(alloc, name)?;
    let mut has_lines = false;
    for line in lines.as_slice() {
        match line.as_slice() {
            [b'@', b'@', b' ', name @ ..] => {
                let before = mem::replace(&mut file, empty(alloc, name)?);
                add_file(files, before, has_lines)?;
                has_lines = false;
            }
            line => {
                add_line(&mut file.content, line, has_lines)?;
                has_lines = true;
            }
        }
    }
    add_file(files, file, has_lines)
}

fn empty(alloc: Global, name: &[u8]) -> Result<MemFile, NoMemory> {
    let name = Bytes::copy(alloc, name)?;
    Ok(MemFile {
        name,
        content: Bytes::new(alloc),
    })
}

fn add_file(files: &mut Seq<MemFile>, file: MemFile, has_lines: bool) -> Result<(), NoMemory> {
    match has_lines {
        true => files.push(file),
        false => Ok(()),
    }
}

fn add_line(content: &mut Bytes, line: &[u8], is_further: bool) -> Result<(), NoMemory> {
    if is_further {
        content.push(b'\n')?;
    }
    content.append(line)
}
