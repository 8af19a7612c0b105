//! What a stream begins with, read in place.
ghost use Rattle.std.specs.Prelude.{◌≡◌, ◌≤◌, drop, length, List, ℕ};
ghost use Rattle.spop_frame.specs.Head.{head_of, is_fragment, whole, Whole};
ghost use Rattle.spop_frame.specs.Header.{frame_seen};
ghost use Rattle.spop_frame.specs.Lent.{IsLent};
ghost use Rattle.spop_frame.specs.declared.frame.Frame.{Frame};

use crate::header::{Header, LENGTH_BYTES, header_of, split_word};
use crate::{flag, kind, status};

/// What the bytes that are held begin with, lent: nothing is copied, and nothing is taken off.
#[derive(Clone, Copy)]
pub enum Head<'a> {
    /// A whole frame, whose payload lies where it was fed.
    Whole(Header<'a>),
    /// No whole frame is there, and nothing is wrong with what is.
    NotYet,
    /// No frame that is taken can come of it; the status of the DISCONNECT that says so: `TOO_BIG`, a
    /// length above the limit; `INVALID`, no frame's spelling; `FRAGMENT`.
    Bad(u32),
}

// What the bytes begin with.
pub fn read_head(limit: u32, bytes: &[u8]) -> Head<'_>
    ensures { IsLent result (head_of limit bytes.now) }
{
    let Some((length, rest)) = split_word(bytes) else {
        return Head::NotYet;
    };
    if length > limit {
        return Head::Bad(status::TOO_BIG);
    }
    let length = length as usize;
    if rest.len() < length {
        return Head::NotYet;
    }
    match header_of(rest.split_at(length).0) {
        None => Head::Bad(status::INVALID),
        Some(header) => taken(header),
    }
}

// A frame that is spelled whole, unless it is a fragment.
fn taken(header: Header<'_>) -> Head<'_>
    ensures { (rest : List ℕ) → IsLent result (whole (Some (frame_seen header.entry)) rest) }
{
    if is_fragment(&header) {
        return Head::Bad(status::FRAGMENT);
    }
    Head::Whole(header)
}

// FIN is missing, ABORT is set or the type is UNSET.
fn is_fragment(header: &Header<'_>) -> bool
    ensures { result ≡ is_fragment (frame_seen header.now) }
{
    header.flags & flag::FIN == 0 || header.flags & flag::ABORT != 0 || header.kind == kind::UNSET
}

// How many bytes the frame has that the bytes begin with.
pub fn frame_size(bytes: &[u8]) -> usize
    ensures { (limit : ℕ) (f : Frame) (rest : List ℕ) → head_of limit bytes.now ≡ Whole f rest
        → (result ≤ length bytes.now) × (drop result bytes.now ≡ rest) }
{
    match split_word(bytes) {
        None => 0,
        Some((length, _)) => LENGTH_BYTES + length as usize,
    }
}
