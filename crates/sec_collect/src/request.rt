ghost use Rattle.std.specs.Prelude.{◌≡◌, length, decimal, IfOk};
ghost use Rattle.sec_collect.specs.Row.{value_named};
ghost use Rattle.sec_collect.specs.Response.{content_type_in};
ghost use Rattle.sec_collect.specs.Request.{basename, host_of, is_slash, line_text, port_text, protocol_text, server_name, uri_text};

use crate::marks::{
    BACKSLASH, COLON, LEFT_BRACKET, QUESTION_MARK, RIGHT_BRACKET, SEMICOLON, SLASH, SPACE,
};
use crate::pieces::{before, through};
use crate::sizes::is_named;
use std::alloc::Global;
use waf_plain::{Bytes, NoMemory};
use web_parts::{NameValue, Request, trimmed};

/// A number in decimal digits.
pub(crate) fn digits(alloc: Global, number: u64) -> Result<Bytes, NoMemory>
    ensures { IfOk result (λ text. text ≡ decimal number) }
{
    let text = number.to_string(alloc)?;
    Ok(Bytes::from_vec(text.into_bytes()))
}

/// The number of bytes, in decimal digits.
pub(crate) fn length_text(alloc: Global, bytes: &[u8]) -> Result<Bytes, NoMemory>
    ensures { IfOk result (λ text. text ≡ decimal (length bytes.now)) }
{
    digits(alloc, bytes.len() as u64)
}

pub(crate) fn port_text(alloc: Global, port: Option<u16>) -> Result<Bytes, NoMemory>
    ensures { IfOk result (λ text. text ≡ port_text port) }
{
    match port {
        Some(port) => digits(alloc, u64::from(port)),
        None => Ok(Bytes::new(alloc)),
    }
}

pub(crate) fn protocol_text(alloc: Global, version: &[u8]) -> Result<Bytes, NoMemory>
    ensures { IfOk result (λ text. text ≡ protocol_text version.now) }
{
    if version.is_empty() {
        return Ok(Bytes::new(alloc));
    }
    let mut text = Bytes::copy(alloc, b"HTTP/")?;
    text.append(version)?;
    Ok(text)
}

pub(crate) fn uri_text(alloc: Global, path: &[u8], query: &[u8]) -> Result<Bytes, NoMemory>
    ensures { IfOk result (λ text. text ≡ uri_text path.now query.now) }
{
    let mut text = Bytes::copy(alloc, path)?;
    if !query.is_empty() {
        text.push(QUESTION_MARK)?;
        text.append(query)?;
    }
    Ok(text)
}

/// The request line, of which `uri` and `protocol` are the texts.
pub(crate) fn line_text(
    alloc: Global,
    request: &Request,
    uri: &Bytes,
    protocol: &Bytes,
) -> Result<Bytes, NoMemory>
    requires uri { uri.now ≡ uri_text request.now.path request.now.query }
    requires protocol { protocol.now ≡ protocol_text request.now.version }
    ensures { IfOk result (λ text. text ≡ line_text request.now) }
{
    let mut text = Bytes::copy(alloc, request.method.as_slice())?;
    text.push(SPACE)?;
    text.append(uri.as_slice())?;
    text.push(SPACE)?;
    text.append(protocol.as_slice())?;
    Ok(text)
}

fn is_slash(byte: u8) -> bool
    ensures { result ≡ is_slash byte }
{
    byte == SLASH || byte == BACKSLASH
}

/// The path after its last slash or backslash.
pub(crate) fn basename(path: &[u8]) -> &[u8]
    ensures { result.now ≡ basename path.now }
{
    let mut name = path;
    let mut rest = path;
    while let Some((first, following)) = rest.split_first() {
        rest = following;
        if is_slash(*first) {
            name = following;
        }
    }
    name
}

/// The value of the first row of a name, without regard to case; empty where there is none.
pub fn value_named<'a>(name: &[u8], rows: &'a [NameValue]) -> &'a [u8]
    ensures { result.now ≡ value_named name.now rows.entry.now }
{
    for row in rows {
        if is_named(name, row) {
            return row.value.as_slice();
        }
    }
    &[]
}

pub(crate) fn server_name(headers: &[NameValue]) -> &[u8]
    ensures { result.now ≡ server_name headers.now }
{
    host_of(value_named(b"host", headers))
}

/// The media type of a response's header fields, without its parameters.
pub(crate) fn content_type(headers: &[NameValue]) -> &[u8]
    ensures { result.now ≡ content_type_in headers.now }
{
    trimmed(before(value_named(b"content-type", headers), SEMICOLON))
}

fn host_of(value: &[u8]) -> &[u8]
    ensures { result.now ≡ host_of value.now }
{
    match value {
        [LEFT_BRACKET, ..] => through(value, RIGHT_BRACKET),
        _ => before(value, COLON),
    }
}
