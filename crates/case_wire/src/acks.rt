use case_text::{Answer, number, small_number};
use spop_data::read_pair;
use spop_talk::{AckFault, Action, write_ack};
use std::alloc::Global;
use waf_plain::{Bytes, NoMemory, Seq};

/// `STREAM FRAME SIZE PAIRS`, then the ACK whose actions set these variables, or `too-big` and its
/// length.
pub fn answer(alloc: Global, given: &[Bytes], out: &mut Answer) {
    let [stream, frame, size, pairs] = given else {
        return out.malformed();
    };
    let (Some(stream), Some(frame), Some(size)) = (
        number(stream.as_slice()),
        number(frame.as_slice()),
        small_number(size.as_slice()),
    ) else {
        return out.malformed();
    };
    match actions_of(alloc, pairs.as_slice()) {
        Ok(actions) => put_ack(alloc, stream, frame, size, &actions, out),
        Err(NoMemory) => out.no_memory(),
    }
}

fn put_ack(
    alloc: Global,
    stream: u64,
    frame: u64,
    size: u32,
    actions: &Seq<Action>,
    out: &mut Answer,
) {
    let mut ack = Bytes::new(alloc);
    match write_ack(alloc, stream, frame, actions, size, &mut ack) {
        Ok(()) => out.quoted(ack.as_slice()),
        Err(AckFault::NoMemory) => out.no_memory(),
        Err(AckFault::TooBig { length }) => out.named_number(b"too-big", length),
    }
}

// The actions that set what pairs spell, up to what spells none.
fn actions_of(alloc: Global, pairs: &[u8]) -> Result<Seq<Action>, NoMemory> {
    let mut actions = Seq::new(alloc);
    let mut rest = pairs;
    for _ in 0..pairs.len() {
        let Ok((pair, used)) = read_pair(alloc, rest) else {
            return Ok(actions);
        };
        actions.push(Action {
            name: pair.name,
            value: pair.value,
        })?;
        rest = rest.split_at(used as usize).1;
    }
    Ok(actions)
}
