//! What a frame asks of the connection, read while its payload is lent.
ghost use Rattle.std.specs.Prelude.{◌≡◌, ◌≢◌, None, Some, ℕ};
ghost use Rattle.spop_frame.specs.Header.{frame_seen};
ghost use Rattle.spop_frame.specs.declared.kind.TheConstants.{HAPROXY_DISCONNECT, NOTIFY};
ghost use Rattle.conn_core.specs.Heard.{Hears, IsKnown};
ghost use Rattle.conn_core.specs.Trace.{is_misplaced};

use spop_data::DataFault;
use spop_frame::{Header, kind, status};
use spop_hello::{Refuse, Terms, negotiate};
use spop_talk::{Message, read_messages};
use std::alloc::Global;
use waf_plain::Seq;

// What a frame asks of the connection.
#[derive(Drop)]
pub enum Heard {
    // The client ends the connection.
    Goodbye,
    // A HELLO, and the terms that it leads to.
    Hello(Terms),
    // A NOTIFY.
    Messages {
        stream: u64,
        frame: u64,
        messages: Seq<Message>,
    },
    // What is out of form or out of place; the status that says so.
    Refused(u32),
    // A frame of no meaning.
    Nothing,
    NoMemory,
}

// What a frame asks of a connection that offers this size, and has agreed on one or has not.
pub(crate) fn heard_in(alloc: Global, header: &Header<'_>, size: u32, agreed: Option<u32>) -> Heard
    ensures hears { Hears size agreed (frame_seen header.now) result }
    ensures known { IsKnown result }
{
    if header.kind == kind::HAPROXY_DISCONNECT {
        return Heard::Goodbye;
    }
    match agreed {
        None => before_hello(alloc, header, size),
        Some(_) => after_hello(alloc, header),
    }
}

// The same before HELLO, but for a DISCONNECT.
fn before_hello(alloc: Global, header: &Header<'_>, size: u32) -> Heard
    requires { header.now.kind ≢ HAPROXY_DISCONNECT }
    ensures hears { Hears size None (frame_seen header.now) result }
    ensures known { IsKnown result }
{
    if header.kind != kind::HAPROXY_HELLO {
        return Heard::Refused(status::INVALID);
    }
    match negotiate(alloc, header.payload, size) {
        Err(Refuse::Status(status)) => Heard::Refused(status),
        Err(Refuse::NoMemory) => Heard::NoMemory,
        Ok(terms) => Heard::Hello(terms),
    }
}

// The same after HELLO.
fn after_hello(alloc: Global, header: &Header<'_>) -> Heard
    requires { header.now.kind ≢ HAPROXY_DISCONNECT }
    ensures hears { (size agreed : ℕ) → Hears size (Some agreed) (frame_seen header.now) result }
    ensures known { IsKnown result }
{
    if header.kind == kind::NOTIFY {
        return messages_in(alloc, header);
    }
    if is_misplaced(header.kind) {
        return Heard::Refused(status::INVALID);
    }
    Heard::Nothing
}

// The messages of a NOTIFY.
fn messages_in(alloc: Global, header: &Header<'_>) -> Heard
    requires { header.now.kind ≡ NOTIFY }
    ensures hears { (size agreed : ℕ) → Hears size (Some agreed) (frame_seen header.now) result }
    ensures known { IsKnown result }
{
    match read_messages(alloc, header.payload) {
        Err(DataFault::NoMemory) => Heard::NoMemory,
        Err(DataFault::Invalid) => Heard::Refused(status::INVALID),
        Ok(messages) => Heard::Messages {
            stream: header.stream,
            frame: header.frame,
            messages,
        },
    }
}

// A type that HAProxy sends once or never.
fn is_misplaced(kind: u8) -> bool
    ensures { result ≡ is_misplaced kind }
{
    kind == kind::HAPROXY_HELLO
        || kind == kind::AGENT_HELLO
        || kind == kind::AGENT_DISCONNECT
        || kind == kind::ACK
}
