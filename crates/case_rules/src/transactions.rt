// Requests and responses in one word of a case.

use case_text::{halves, pieces, small_number};
use std::alloc::Global;
use std::net::IpAddr;
use waf_plain::{Bytes, NoMemory, Seq};
use web_parts::{Address, Request, Response};

/// A request. Its first line is `METHOD TARGET VERSION SRC PORT DST PORT ID`, of which the end may be
/// missing; `-` stands for a word that is not told.
pub fn request_of(alloc: Global, text: &[u8]) -> Result<Request, NoMemory> {
    let (first, rest) = halves(text, b'\n');
    let words = pieces(alloc, first, b' ')?;
    let mut request = empty_request(alloc);
    fill(alloc, words.as_slice(), rest.unwrap_or(b""), &mut request)?;
    Ok(request)
}

fn empty_request(alloc: Global) -> Request {
    Request {
        id: Bytes::new(alloc),
        src: Address::None,
        src_port: None,
        dst: Address::None,
        dst_port: None,
        method: Bytes::new(alloc),
        path: Bytes::new(alloc),
        query: Bytes::new(alloc),
        version: Bytes::new(alloc),
        headers: Bytes::new(alloc),
        body: Bytes::new(alloc),
    }
}

fn fill(
    alloc: Global,
    words: &[Bytes],
    rest: &[u8],
    request: &mut Request,
) -> Result<(), NoMemory> {
    let (path, query) = halves(word_or(words, 1, b"/"), b'?');
    let (headers, body) = head_and_body(rest);
    request.src = address_of(word_or(words, 3, b"192.0.2.1"));
    request.src_port = port_of(word_or(words, 4, b"46354"));
    request.dst = address_of(word_or(words, 5, b"198.51.100.7"));
    request.dst_port = port_of(word_or(words, 6, b"443"));
    request.method.append(told(word_or(words, 0, b"GET")))?;
    request.path.append(path)?;
    request.query.append(query.unwrap_or(b""))?;
    request.version.append(told(word_or(words, 2, b"1.1")))?;
    request.id.append(told(word_or(words, 7, b"t10")))?;
    request.headers.append(headers)?;
    request.body.append(body)
}

/// A response, or none for `-`. Its first line is `STATUS VERSION`, of which the end may be missing.
pub fn response_of(alloc: Global, text: &[u8]) -> Result<Option<Response>, NoMemory> {
    let (first, rest) = halves(text, b'\n');
    let words = pieces(alloc, first, b' ')?;
    match small_number(word_or(words.as_slice(), 0, b"-")) {
        Some(status) => {
            let version = told(word_or(words.as_slice(), 1, b"1.1"));
            Ok(Some(response(alloc, status, version, rest.unwrap_or(b""))?))
        }
        None => Ok(None),
    }
}

fn response(alloc: Global, status: u32, version: &[u8], rest: &[u8]) -> Result<Response, NoMemory> {
    let (headers, body) = head_and_body(rest);
    Ok(Response {
        version: Bytes::copy(alloc, version)?,
        status,
        headers: Bytes::copy(alloc, headers)?,
        body: Bytes::copy(alloc, body)?,
    })
}

// The lines up to the first empty one, and what stands after it.
fn head_and_body(text: &[u8]) -> (&[u8], &[u8]) {
    let mut before = b'\n';
    for (at, byte) in text.iter().enumerate() {
        if *byte == b'\n' && before == b'\n' {
            return (text.split_at(at).0, text.split_at(at + 1).1);
        }
        before = *byte;
    }
    (text, b"")
}

// A word of a first line, or what stands for it where the line ends before.
fn word_or<'a>(words: &'a [Bytes], at: usize, other: &'static [u8]) -> &'a [u8] {
    match words.get(at) {
        Some(word) => word.as_slice(),
        None => other,
    }
}

fn told(word: &[u8]) -> &[u8] {
    match word {
        [b'-'] => b"",
        word => word,
    }
}

fn address_of(word: &[u8]) -> Address {
    match IpAddr::parse_ascii(word) {
        Ok(IpAddr::V4(address)) => Address::V4(address.octets()),
        Ok(IpAddr::V6(address)) => Address::V6(address.octets()),
        Err(_) => Address::None,
    }
}

fn port_of(word: &[u8]) -> Option<u16> {
    match small_number(word) {
        Some(port) => u16::try_from(port).ok(),
        None => None,
    }
}
