ghost use Rattle.std.specs.Prelude.{◌≡◌, ◌++◌, ◌<◌, ◌^◌, [], IfOk, OnErr, OnOk, Some, codes, if◌then◌else◌};
ghost use Rattle.spop_data.specs.Writing.{pair_bytes};
ghost use Rattle.spop_hello.specs.Frames.{agent_hello, control_bytes, disconnect, disconnect_payload, hello_payload};
ghost use Rattle.spop_hello.specs.Frames.{message_of, number_pair, text_pair, IsSmall, IsStatus};

use crate::Terms;
use spop_data::{Data, Pair, write_pair};
use spop_frame::{Frame, WriteFault, flag, kind, status, write_frame};
use std::alloc::Global;
use waf_plain::{Bytes, NoMemory};

/// Appends the AGENT-HELLO for these terms: version 2.0, the size, and `pipelining` where the client
/// has it. After an `Err` the bytes are as before (SPOE.txt, 3.2.5).
pub fn hello_frame(alloc: Global, terms: &Terms, out: &mut Bytes) -> Result<(), NoMemory>
    ensures ok { OnOk result (out.new ≡ out.old ++ agent_hello terms.now) }
    ensures err { OnErr result (out.new ≡ out.old) }
{
    let payload = hello_payload(alloc, terms)?;
    append(alloc, kind::AGENT_HELLO, payload, out)
}

/// Appends the AGENT-DISCONNECT with that status and its text. After an `Err` the bytes are as
/// before (SPOE.txt, 3.2.9 and 3.5).
pub fn disconnect_frame(alloc: Global, status: u32, out: &mut Bytes) -> Result<(), NoMemory>
    requires known { IsStatus status }
    ensures ok { OnOk result (out.new ≡ out.old ++ disconnect status) }
    ensures err { OnErr result (out.new ≡ out.old) }
{
    let payload = disconnect_payload(alloc, status)?;
    append(alloc, kind::AGENT_DISCONNECT, payload, out)
}

#[tactic(auto, unfolding(crate::specs::Frames::hello_payload))]
fn hello_payload(alloc: Global, terms: &Terms) -> Result<Bytes, NoMemory>
    ensures is { IfOk result (λ payload. payload ≡ hello_payload terms.now) }
    ensures sized { OnOk result (terms.now.size < 2 ^ 32) }
{
    let mut payload = Bytes::new(alloc);
    put_text(alloc, b"version", b"2.0", &mut payload)?;
    put_number(alloc, b"max-frame-size", terms.size, &mut payload)?;
    put_text(
        alloc,
        b"capabilities",
        capability(terms.pipelining),
        &mut payload,
    )?;
    Ok(payload)
}

#[tactic(auto, unfolding(crate::specs::Frames::disconnect_payload))]
fn disconnect_payload(alloc: Global, status: u32) -> Result<Bytes, NoMemory>
    requires known { IsStatus status }
    ensures { IfOk result (λ payload. payload ≡ disconnect_payload status) }
{
    let mut payload = Bytes::new(alloc);
    put_number(alloc, b"status-code", status, &mut payload)?;
    put_text(alloc, b"message", message(status), &mut payload)?;
    Ok(payload)
}

fn capability(pipelining: bool) -> &'static [u8]
    ensures { result.now ≡ (if pipelining then codes "pipelining" else []) }
{
    if pipelining { b"pipelining" } else { b"" }
}

fn message(status: u32) -> &'static [u8]
    requires known { IsStatus status }
    ensures { message_of status ≡ Some result.now }
{
    match status {
        status::NORMAL => b"normal",
        status::TOO_BIG => b"frame too big",
        status::INVALID => b"invalid frame",
        status::NO_VERSIONS => b"version not found",
        status::NO_SIZE => b"max-frame-size not found",
        status::NO_CAPABILITIES => b"capabilities not found",
        status::BAD_VERSION => b"unsupported version",
        status::BAD_SIZE => b"bad max-frame-size",
        status::FRAGMENT => b"fragmentation not supported",
        status::NO_MEMORY => b"resource allocation error",
        _ => unreachable!(),
    }
}

fn put_text(alloc: Global, name: &[u8], text: &[u8], out: &mut Bytes) -> Result<(), NoMemory>
    ensures { OnOk result (out.new ≡ out.old ++ pair_bytes (text_pair name.now text.now)) }
{
    let name = Bytes::copy(alloc, name)?;
    let value = Data::Text(Bytes::copy(alloc, text)?);
    write_pair(&Pair { name, value }, out)
}

fn put_number(alloc: Global, name: &[u8], number: u32, out: &mut Bytes) -> Result<(), NoMemory>
    ensures ok { OnOk result (out.new ≡ out.old ++ pair_bytes (number_pair name.now number)) }
    ensures fits { number < 2 ^ 32 }
{
    let name = Bytes::copy(alloc, name)?;
    let value = Data::Uint32(number);
    write_pair(&Pair { name, value }, out)
}

// Appends a frame with FIN alone that belongs to no stream.
#[tactic(auto, unfolding(crate::specs::Frames::control_bytes))]
fn append(alloc: Global, kind: u8, payload: Bytes, out: &mut Bytes) -> Result<(), NoMemory>
    requires small { IsSmall payload }
    ensures ok { OnOk result (out.new ≡ out.old ++ control_bytes kind payload) }
    ensures err { OnErr result (out.new ≡ out.old) }
{
    let frame = Frame {
        kind,
        flags: flag::FIN,
        stream: 0,
        frame: 0,
        payload,
    };
    match write_frame(alloc, &frame, out) {
        Ok(()) => Ok(()),
        Err(WriteFault::NoMemory) => Err(NoMemory),
        Err(WriteFault::TooLong) => unreachable!(),
    }
}
