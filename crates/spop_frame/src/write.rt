ghost use Rattle.std.specs.Prelude.{◌≡◌, ◌++◌, IfOk, IsErrOf, List, OnErr, OnOk, ℕ};
ghost use Rattle.std.specs.Int.{to_be_bytes, w32};
ghost use Rattle.spop_frame.specs.Frame.{AppendsFrame, IsTooLong, SpellsBody};
ghost use Rattle.spop_frame.specs.Writing.{frame_bytes};
ghost use Rattle.spop_frame.specs.declared.write.WriteFault.TheVariants.{NoMemory as no_memory};

use crate::Frame;
use spop_varint::write_varint;
use std::alloc::Global;
use waf_plain::{Bytes, NoMemory};

/// Why a frame was not written.
#[derive(Clone, Copy, Debug, PartialEq, Eq)]
pub enum WriteFault {
    /// Its length does not fit the four bytes that it has.
    TooLong,
    NoMemory,
}

impl From<NoMemory> for WriteFault {
    ghost from_gives = { λ _ e. e ≡ no_memory };

    fn from(_: NoMemory) -> WriteFault {
        WriteFault::NoMemory
    }
}

/// Appends the spelling of a frame. After an `Err` the bytes are as before. The payload is copied
/// once, and not at all where the frame is too long.
pub fn write_frame(alloc: Global, frame: &Frame, out: &mut Bytes) -> Result<(), WriteFault>
    ensures ok { OnOk result (AppendsFrame out.old out.new frame.now) }
    ensures too_long { IsErrOf result WriteFault.TooLong → IsTooLong frame.now }
    ensures never { IsTooLong frame.now → OnOk result ⊥ }
    ensures err { OnErr result (out.new ≡ out.old) }
    ensures exact { OnOk result (out.new ≡ out.old ++ frame_bytes frame.now) }
{
    let header = header_of(alloc, frame)?;
    let payload = frame.payload.as_slice();
    let Ok(length) = u32::try_from(header.len() + payload.len()) else {
        return Err(WriteFault::TooLong);
    };
    let before = out.len();
    match append_all(length, header.as_slice(), payload, out) {
        Ok(()) => Ok(()),
        Err(NoMemory) => {
            out.truncate(before);
            Err(WriteFault::NoMemory)
        }
    }
}

// The bytes between the length and the payload.
fn header_of(alloc: Global, frame: &Frame) -> Result<Bytes, NoMemory>
    ensures { IfOk result (λ header. SpellsBody (header ++ frame.now.payload) frame.now) }
{
    let mut header = Bytes::new(alloc);
    header.push(frame.kind)?;
    header.append(&frame.flags.to_be_bytes())?;
    write_varint(frame.stream, &mut header)?;
    write_varint(frame.frame, &mut header)?;
    Ok(header)
}

// Appends a length in network order and two pieces; after an `Err` maybe a prefix of them.
fn append_all(length: u32, header: &[u8], payload: &[u8], out: &mut Bytes) -> Result<(), NoMemory>
    ensures ok { OnOk result (out.new ≡ out.old ++ (to_be_bytes w32 length ++ (header.now ++ payload.now))) }
    ensures err { OnErr result ((prefix : List ℕ) × (out.new ≡ out.old ++ prefix)) }
{
    out.append(&length.to_be_bytes())?;
    out.append(header)?;
    out.append(payload)?;
    Ok(())
}
