use crate::values::put_pair;
use case_text::Answer;
use spop_data::DataFault;
use spop_talk::{Message, read_messages};
use std::alloc::Global;
use waf_plain::Bytes;

/// `PAYLOAD`, then of each message `message`, its name, how many arguments it has, and these; or
/// `invalid`.
pub fn answer(alloc: Global, given: &[Bytes], out: &mut Answer) {
    let [payload] = given else {
        return out.malformed();
    };
    match read_messages(alloc, payload.as_slice()) {
        Err(DataFault::NoMemory) => out.no_memory(),
        Err(DataFault::Invalid) => out.plain(b"invalid"),
        Ok(messages) => put_messages(messages.as_slice(), out),
    }
}

fn put_messages(messages: &[Message], out: &mut Answer) {
    for message in messages {
        out.named(b"message", message.name.as_slice());
        out.number(message.args.len());
        for pair in message.args.as_slice() {
            put_pair(pair, out);
        }
    }
}
