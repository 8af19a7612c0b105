ghost use Rattle.std.specs.Prelude.{◌≡◌, ◌<◌, ◌^◌, IfOk, OnOk};
ghost use Rattle.workload.specs.Messages.{
  answered,
  hello_bytes,
  hello_payload,
  id_of,
  method_of,
  query_of,
  request_bytes,
  request_payload,
  response_bytes,
  response_payload,
  status_of,
};

use crate::frames::{frame_of, put_number, put_text};
use crate::turn::Turn;
use spop_data::write_text;
use spop_frame::kind;
use std::alloc::Global;
use waf_plain::{Bytes, NoMemory};

// The longest frame that HAProxy takes.
const SIZE: u32 = 16380;

// The numbers of the frames in a stream.
const REQUEST: u64 = 1;

const RESPONSE: u64 = 2;

const REQUEST_ARGUMENTS: u8 = 4;

const RESPONSE_ARGUMENTS: u8 = 2;

// Of so many requests one is a POST.
const METHODS: u64 = 4;

// Which of them it is.
const POST_AT: u64 = 1;

// Queries have so many lengths.
const QUERIES: u64 = 1024;

// What a query is filled with.
const LETTER: u8 = b'x';

// As many requests as may wait for the next response, that of its own turn among them.
const WAITING: u64 = 4;

// Of so many responses one has failed.
const STATUSES: u64 = 5;

const FAILED: u32 = 500;

const SERVED: u32 = 200;

// HAPROXY-HELLO.
#[tactic(auto, unfolding(crate::specs::Messages::hello_bytes))]
pub(crate) fn hello(alloc: Global) -> Result<Bytes, NoMemory>
    ensures { IfOk result (λ bytes. bytes ≡ hello_bytes) }
{
    let payload = hello_payload(alloc)?;
    frame_of(alloc, kind::HAPROXY_HELLO, 0, 0, payload)
}

#[tactic(auto, unfolding(crate::specs::Messages::hello_payload))]
fn hello_payload(alloc: Global) -> Result<Bytes, NoMemory>
    ensures { IfOk result (λ payload. payload ≡ hello_payload) }
{
    let mut payload = Bytes::new(alloc);
    put_text(alloc, b"supported-versions", b"2.0", &mut payload)?;
    put_number(alloc, b"max-frame-size", SIZE, &mut payload)?;
    put_text(alloc, b"capabilities", b"pipelining", &mut payload)?;
    Ok(payload)
}

// The NOTIFY with the request of a turn.
#[tactic(auto, unfolding(crate::specs::Messages::request_bytes))]
pub(crate) fn request(alloc: Global, turn: &Turn) -> Result<Bytes, NoMemory>
    ensures { IfOk result (λ bytes. bytes ≡ request_bytes turn.now) }
{
    let payload = request_payload(alloc, turn)?;
    frame_of(alloc, kind::NOTIFY, turn.number, REQUEST, payload)
}

#[tactic(auto, unfolding(crate::specs::Messages::request_payload))]
fn request_payload(alloc: Global, turn: &Turn) -> Result<Bytes, NoMemory>
    ensures payload { IfOk result (λ payload. payload ≡ request_payload turn.now) }
    ensures fits { OnOk result (turn.now.number < 2 ^ 64) }
{
    let id = id_of(alloc, turn.number)?;
    let query = query_of(alloc, turn)?;
    let mut payload = Bytes::new(alloc);
    write_text(b"coraza-req", &mut payload)?;
    payload.push(REQUEST_ARGUMENTS)?;
    put_text(alloc, b"id", id.as_slice(), &mut payload)?;
    put_text(alloc, b"method", method_of(turn), &mut payload)?;
    put_text(alloc, b"path", b"/p", &mut payload)?;
    put_text(alloc, b"query", query.as_slice(), &mut payload)?;
    Ok(payload)
}

// The NOTIFY with the response of a turn.
#[tactic(auto, unfolding(crate::specs::Messages::response_bytes))]
pub(crate) fn response(alloc: Global, turn: &Turn) -> Result<Bytes, NoMemory>
    ensures { IfOk result (λ bytes. bytes ≡ response_bytes turn.now) }
{
    let payload = response_payload(alloc, turn)?;
    frame_of(alloc, kind::NOTIFY, turn.number, RESPONSE, payload)
}

#[tactic(auto, unfolding(crate::specs::Messages::response_payload))]
fn response_payload(alloc: Global, turn: &Turn) -> Result<Bytes, NoMemory>
    ensures payload { IfOk result (λ payload. payload ≡ response_payload turn.now) }
    ensures fits { OnOk result (answered turn.now < 2 ^ 64) }
{
    let id = id_of(alloc, answered(turn))?;
    let mut payload = Bytes::new(alloc);
    write_text(b"coraza-res", &mut payload)?;
    payload.push(RESPONSE_ARGUMENTS)?;
    put_text(alloc, b"id", id.as_slice(), &mut payload)?;
    put_number(alloc, b"status", status_of(turn), &mut payload)?;
    Ok(payload)
}

// The transaction of a turn.
fn id_of(alloc: Global, number: u64) -> Result<Bytes, NoMemory>
    ensures id { IfOk result (λ id. id ≡ id_of number) }
    ensures fits { number < 2 ^ 64 }
{
    let mut buffer = itoa::Buffer::new();
    let mut id = Bytes::copy(alloc, b"t")?;
    id.append(buffer.format(number).as_bytes())?;
    Ok(id)
}

fn method_of(turn: &Turn) -> &'static [u8]
    ensures { result.now ≡ method_of turn.now }
{
    if turn.method % METHODS == POST_AT {
        b"POST"
    } else {
        b"GET"
    }
}

fn query_of(alloc: Global, turn: &Turn) -> Result<Bytes, NoMemory>
    ensures { IfOk result (λ query. query ≡ query_of turn.now) }
{
    let letters = Vec::from_elem(alloc, LETTER, (turn.query % QUERIES) as usize)?;
    let mut query = Bytes::copy(alloc, b"q=")?;
    query.append(letters.as_slice())?;
    Ok(query)
}

// The turn whose request the response answers.
fn answered(turn: &Turn) -> u64
    ensures { result ≡ answered turn.now }
{
    let before = turn.number.saturating_sub(1);
    turn.number - before.min(turn.back % WAITING)
}

fn status_of(turn: &Turn) -> u32
    ensures { result ≡ status_of turn.now }
{
    if turn.status % STATUSES == 0 {
        FAILED
    } else {
        SERVED
    }
}
