ghost use Rattle.std.specs.Prelude.{◌≡◌};
ghost use Rattle.std.specs.Option.{option_map};
ghost use Rattle.spop_frame.specs.Header.{frame_seen};
ghost use Rattle.spop_frame.specs.Reading.{frame_of, split_word};

use crate::Frame;
use spop_varint::split_varint;
use waf_plain::Bytes;

/// How many bytes the length of a frame has.
pub const LENGTH_BYTES: usize = 4;

/// A frame whose payload still lies in the bytes that it was read from.
#[derive(Clone, Copy)]
pub struct Header<'a> {
    /// One of the types in `kind`, or one that nobody knows.
    pub kind: u8,
    /// Those in `flag`, and others without a meaning.
    pub flags: u32,
    /// STREAM-ID.
    pub stream: u64,
    /// FRAME-ID.
    pub frame: u64,
    pub payload: &'a [u8],
}

impl Header<'_> {
    // The frame of this header with a copy of its payload.
    pub(crate) fn frame(&self, payload: Bytes) -> Frame
        requires { payload ≡ self.now.payload.now }
        ensures { result ≡ frame_seen self.now }
    {
        Frame {
            kind: self.kind,
            flags: self.flags,
            stream: self.stream,
            frame: self.frame,
            payload,
        }
    }
}

// The frame that the bytes after a length are.
#[tactic(auto, unfolding(crate::specs::Reading::frame_of))]
pub fn header_of(body: &[u8]) -> Option<Header<'_>>
    ensures { option_map frame_seen result ≡ frame_of body.now }
{
    let Some((kind, rest)) = body.split_first() else {
        return None;
    };
    let Some((flags, rest)) = split_word(rest) else {
        return None;
    };
    let Some((stream, rest)) = split_varint(rest) else {
        return None;
    };
    let Some((frame, payload)) = split_varint(rest) else {
        return None;
    };
    Some(Header {
        kind: *kind,
        flags,
        stream,
        frame,
        payload,
    })
}

// Four bytes in network order, and the bytes after them.
pub fn split_word(bytes: &[u8]) -> Option<(u32, &[u8])>
    ensures { option_map (λ x. (x.0, x.1.now)) result ≡ split_word bytes.now }
{
    let [a, b, c, d, ..] = bytes else {
        return None;
    };
    Some((u32::from_be_bytes([*a, *b, *c, *d]), bytes.split_at(4).1))
}
