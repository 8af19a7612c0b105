ghost use Rattle.std.specs.Prelude.{◌≡◌, ◌++◌, ◌<◌, ◌^◌, IfOk, OnOk};
ghost use Rattle.spop_data.specs.Writing.{pair_bytes};
ghost use Rattle.spop_frame.specs.Writing.{frame_bytes};
ghost use Rattle.workload.specs.Messages.{IsSmall, number_pair, text_pair, whole};

use spop_data::{Data, Pair, write_pair};
use spop_frame::{Frame, WriteFault, flag, write_frame};
use std::alloc::Global;
use waf_plain::{Bytes, NoMemory};

// No payload of a script has more bytes.
const MOST_PAYLOAD: usize = 2000;

// The bytes of a frame with FIN alone.
pub(crate) fn frame_of(
    alloc: Global,
    kind: u8,
    stream: u64,
    number: u64,
    payload: Bytes,
) -> Result<Bytes, NoMemory>
    requires small { IsSmall payload }
    ensures { IfOk result (λ bytes. bytes ≡ frame_bytes (whole kind stream number payload)) }
{
    let frame = Frame {
        kind,
        flags: flag::FIN,
        stream,
        frame: number,
        payload,
    };
    let mut bytes = Bytes::new(alloc);
    match write_frame(alloc, &frame, &mut bytes) {
        Ok(()) => Ok(bytes),
        Err(WriteFault::NoMemory) => Err(NoMemory),
        Err(WriteFault::TooLong) => unreachable!(),
    }
}

pub(crate) fn put_text(
    alloc: Global,
    name: &[u8],
    text: &[u8],
    out: &mut Bytes,
) -> Result<(), NoMemory>
    ensures { OnOk result (out.new ≡ out.old ++ pair_bytes (text_pair name.now text.now)) }
{
    let name = Bytes::copy(alloc, name)?;
    let value = Data::Text(Bytes::copy(alloc, text)?);
    write_pair(&Pair { name, value }, out)
}

pub(crate) fn put_number(
    alloc: Global,
    name: &[u8],
    number: u32,
    out: &mut Bytes,
) -> Result<(), NoMemory>
    ensures { OnOk result (out.new ≡ out.old ++ pair_bytes (number_pair name.now number)) }
{
    let name = Bytes::copy(alloc, name)?;
    let value = Data::Uint32(number);
    write_pair(&Pair { name, value }, out)
}
