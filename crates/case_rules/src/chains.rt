use case_text::{Answer, items, small_number};
use sec_ast::Transform;
use sec_transforms::apply_chain;
use std::alloc::Global;
use waf_plain::{Bytes, NoMemory, Seq};

// A longer result is told by its end alone.
const SHOWN: usize = 64;

const END: usize = 4;

/// `NAMES PIECE COUNT REST`, then what the chain gives of so many pieces and the rest: its length, and
/// the whole, or its last four bytes where it has more than 64.
pub fn answer(alloc: Global, given: &[Bytes], out: &mut Answer) {
    let [names, piece, count, rest] = given else {
        return out.malformed();
    };
    let Some(count) = small_number(count.as_slice()) else {
        return out.malformed();
    };
    match repeated(alloc, piece.as_slice(), count, rest.as_slice()) {
        Ok(value) => chain(alloc, names.as_slice(), value.as_slice(), out),
        Err(NoMemory) => out.no_memory(),
    }
}

fn repeated(alloc: Global, piece: &[u8], count: u32, rest: &[u8]) -> Result<Bytes, NoMemory> {
    let mut value = Bytes::new(alloc);
    for _ in 0..count {
        value.append(piece)?;
    }
    value.append(rest)?;
    Ok(value)
}

fn chain(alloc: Global, names: &[u8], value: &[u8], out: &mut Answer) {
    match transforms_of(alloc, names) {
        Ok(Some(transforms)) => put_result(apply_chain(alloc, &transforms, value), out),
        Ok(None) => out.malformed(),
        Err(NoMemory) => out.no_memory(),
    }
}

// The transformations of these names; `None` where one is no name.
fn transforms_of(alloc: Global, names: &[u8]) -> Result<Option<Seq<Transform>>, NoMemory> {
    let mut transforms = Seq::new(alloc);
    for name in items(alloc, names, b',')?.as_slice() {
        let Some(transform) = Transform::named(name.as_slice()) else {
            return Ok(None);
        };
        transforms.push(transform)?;
    }
    Ok(Some(transforms))
}

fn put_result(came: Result<Bytes, NoMemory>, out: &mut Answer) {
    match came {
        Ok(came) => {
            out.number(came.len() as u64);
            out.quoted(shown(came.as_slice()))
        }
        Err(NoMemory) => out.no_memory(),
    }
}

fn shown(came: &[u8]) -> &[u8] {
    if came.len() <= SHOWN {
        return came;
    }
    came.split_at(came.len() - END).1
}
