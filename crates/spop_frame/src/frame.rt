ghost use Rattle.std.specs.Prelude.{◌≡◌, length};
ghost use Rattle.spop_frame.specs.Writing.{body_bytes};

use spop_varint::varint_length;
use waf_plain::Bytes;

// How many bytes the type and the flags have.
const KIND_AND_FLAGS: u64 = 5;

/// A frame of SPOP.
#[derive(Clone, Debug, PartialEq, Eq, Drop)]
pub struct Frame {
    /// One of the types in `kind`, or one that nobody knows.
    pub kind: u8,
    /// Those in `flag`, and others without a meaning.
    pub flags: u32,
    /// STREAM-ID: HAProxy's stream, 0 in HELLO and DISCONNECT frames.
    pub stream: u64,
    /// FRAME-ID: the frame within that stream, which its ACK repeats.
    pub frame: u64,
    pub payload: Bytes,
}

impl Frame {
    /// The length that its first four bytes give, of all that follows these. It takes no memory.
    pub fn length(&self) -> u64
        ensures { result ≡ length (body_bytes self.now) }
    {
        let stream = varint_length(self.stream);
        let frame = varint_length(self.frame);
        let payload = self.payload.as_slice();
        KIND_AND_FLAGS + stream + frame + payload.len() as u64
    }
}
