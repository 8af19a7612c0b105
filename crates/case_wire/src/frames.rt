use case_text::{Answer, small_number};
use spop_frame::{Frame, Framer, Next, WriteFault, write_frame};
use std::alloc::Global;
use waf_plain::{Bytes, NoMemory};

/// `LIMIT LATER STREAM`: what is read with the first limit, and then with the later one. A frame is its
/// type, its flags, its stream, its number and its payload; then come `not-yet` or `bad` and a status,
/// and how many bytes are held. Last come the bytes that are written for all the frames. `cut` and a
/// place come where the stream reads otherwise when it is cut there, and `bytes` where it does so when
/// it comes byte by byte.
pub fn answer(alloc: Global, given: &[Bytes], out: &mut Answer) {
    let [limit, later, stream] = given else {
        return out.malformed();
    };
    let (Some(limit), Some(later)) = (
        small_number(limit.as_slice()),
        small_number(later.as_slice()),
    ) else {
        return out.malformed();
    };
    let limits = Limits { limit, later };
    let stream = stream.as_slice();
    read_pieces(alloc, limits, stream, 0, stream.len(), out);
    read_cuts(alloc, limits, stream, out)
}

// The limit that a stream is read with, and the one after it.
#[derive(Clone, Copy)]
struct Limits {
    limit: u32,
    later: u32,
}

// Reads the stream as a piece that ends at a place, and further ones of that many bytes.
fn read_pieces(
    alloc: Global,
    limits: Limits,
    stream: &[u8],
    place: usize,
    size: usize,
    out: &mut Answer,
) {
    let mut framer = Framer::new(alloc, limits.limit);
    let mut written = Bytes::new(alloc);
    let (first, rest) = stream.split_at(place.min(stream.len()));
    feed(alloc, first, &mut framer, &mut written, out);
    for piece in rest.chunks(size.max(1)) {
        feed(alloc, piece, &mut framer, &mut written, out);
    }
    put_state(alloc, &mut framer, out);
    framer.set_limit(limits.later);
    take_frames(alloc, &mut framer, &mut written, out);
    put_state(alloc, &mut framer, out);
    out.quoted(written.as_slice())
}

fn feed(alloc: Global, piece: &[u8], framer: &mut Framer, written: &mut Bytes, out: &mut Answer) {
    match framer.feed(piece) {
        Ok(()) => take_frames(alloc, framer, written, out),
        Err(NoMemory) => out.no_memory(),
    }
}

// Takes the frames that are held whole. None has no bytes.
fn take_frames(alloc: Global, framer: &mut Framer, written: &mut Bytes, out: &mut Answer) {
    for _ in 0..framer.held() {
        match framer.next(alloc) {
            Next::Frame(frame) => put_frame(alloc, &frame, written, out),
            _ => return,
        }
    }
}

fn put_frame(alloc: Global, frame: &Frame, written: &mut Bytes, out: &mut Answer) {
    out.number(u64::from(frame.kind));
    out.number(u64::from(frame.flags));
    out.number(frame.stream);
    out.number(frame.frame);
    out.quoted(frame.payload.as_slice());
    match write_frame(alloc, frame, written) {
        Ok(()) => {}
        Err(WriteFault::TooLong) => out.plain(b"too-long"),
        Err(WriteFault::NoMemory) => out.no_memory(),
    }
}

fn put_state(alloc: Global, framer: &mut Framer, out: &mut Answer) {
    match framer.next(alloc) {
        Next::Frame(_) => out.plain(b"frame"),
        Next::NotYet => out.plain(b"not-yet"),
        Next::Bad(status) => out.named_number(b"bad", u64::from(status)),
        Next::NoMemory => out.no_memory(),
    }
    out.number(framer.held())
}

// Tells where the stream reads otherwise in pieces than whole, as `out` has it.
fn read_cuts(alloc: Global, limits: Limits, stream: &[u8], out: &mut Answer) {
    for place in 1..stream.len() {
        if !is_same(alloc, limits, stream, place, stream.len(), out) {
            return out.named_number(b"cut", place as u64);
        }
    }
    if !is_same(alloc, limits, stream, 0, 1, out) {
        out.plain(b"bytes")
    }
}

// Whether the stream in such pieces reads as `whole` has it.
fn is_same(
    alloc: Global,
    limits: Limits,
    stream: &[u8],
    place: usize,
    size: usize,
    whole: &Answer,
) -> bool {
    let mut cut = Answer::new(alloc);
    read_pieces(alloc, limits, stream, place, size, &mut cut);
    cut.words() == whole.words()
}
