// Rule files at the limits of the language, which are made of a repeated piece.

use crate::rule_files::{add_files, put_fault};
use case_text::{Answer, small_number};
use sec_read::read_rules;
use std::alloc::Global;
use waf_io::{MemFile, MemFiles};
use waf_plain::{Bytes, NoMemory, Seq};

/// `NAME HEAD PIECE COUNT TEXT`: the file NAME is the head and so many times the piece, in which `%`
/// stands for the number of the piece, from 1. Beside it are the files of TEXT, the first of them `d/a`,
/// which is read. How many items there are, or the fault.
pub fn answer(alloc: Global, given: &[Bytes], out: &mut Answer) {
    let [name, head, piece, count, text] = given else {
        return out.malformed();
    };
    let Some(count) = small_number(count.as_slice()) else {
        return out.malformed();
    };
    match repeated(alloc, head.as_slice(), piece.as_slice(), count) {
        Ok(content) => read(alloc, name.as_slice(), content, text.as_slice(), out),
        Err(NoMemory) => out.no_memory(),
    }
}

fn read(alloc: Global, name: &[u8], content: Bytes, text: &[u8], out: &mut Answer) {
    let Ok(files) = files_with(alloc, name, content, text) else {
        return out.no_memory();
    };
    let mut files = MemFiles::new(files, Seq::new(alloc));
    match read_rules(alloc, b"d/a", &mut files) {
        Ok(listing) => out.number(listing.items.len()),
        Err(fault) => put_fault(&fault, out),
    }
}

// One file, and after it those of a text.
fn files_with(
    alloc: Global,
    name: &[u8],
    content: Bytes,
    text: &[u8],
) -> Result<Seq<MemFile>, NoMemory> {
    let name = Bytes::copy(alloc, name)?;
    let mut files = Seq::new(alloc);
    files.push(MemFile { name, content })?;
    add_files(alloc, b"d/a", text, &mut files)?;
    Ok(files)
}

fn repeated(alloc: Global, head: &[u8], piece: &[u8], count: u32) -> Result<Bytes, NoMemory> {
    let mut text = Bytes::copy(alloc, head)?;
    for number in 0..count {
        add_piece(alloc, piece, number, &mut text)?;
    }
    Ok(text)
}

fn add_piece(alloc: Global, piece: &[u8], number: u32, text: &mut Bytes) -> Result<(), NoMemory> {
    for byte in piece {
        match byte {
            b'%' => add_number(alloc, number, text)?,
            byte => text.push(*byte)?,
        }
    }
    Ok(())
}

fn add_number(alloc: Global, number: u32, text: &mut Bytes) -> Result<(), NoMemory> {
    let digits = u64::from(number).saturating_add(1).to_string(alloc)?;
    text.append(digits.as_bytes())
}
