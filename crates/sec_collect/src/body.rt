ghost use Rattle.std.specs.Prelude.{◌≡◌, ◌+◌, decimal, Some, position, IfOk};
ghost use Rattle.std.specs.Str.{str_eq_ignore_ascii_case};
ghost use Rattle.sec_collect.specs.Row.{size_of};
ghost use Rattle.sec_collect.specs.Body.{ends_media_type, flag_text, is_form, is_form_type, is_longer, is_urlencoded, left_of, media_type, posted};

use crate::OpenedBody;
use crate::marks::{COMMA, SEMICOLON};
use crate::request::value_named;
use crate::sizes::size_of;
use sec_ast::Processor;
use std::alloc::Global;
use waf_plain::{Bytes, NoMemory, Seq};
use web_parts::{NameValue, argument_rows};

// A semicolon, a comma, a space or a tab.
fn ends_media_type(byte: u8) -> bool
    ensures { result ≡ ends_media_type byte }
{
    byte == SEMICOLON || byte == COMMA || byte == b' ' || byte == b'\t'
}

fn media_type(headers: &[NameValue]) -> &[u8]
    ensures { result.now ≡ media_type headers.now }
{
    let value = value_named(b"content-type", headers);
    match end_of_media_type(value) {
        Some(at) => value.split_at(at).0,
        None => value,
    }
}

fn end_of_media_type(value: &[u8]) -> Option<usize>
    ensures { result ≡ position ends_media_type value.now }
{
    value.iter().position(|byte| ends_media_type(*byte))
}

/// Whether the media type of the header fields is that of a form.
pub(crate) fn is_form(headers: &[NameValue]) -> bool
    ensures { result ≡ is_form headers.now }
{
    is_form_type(media_type(headers))
}

fn is_form_type(text: &[u8]) -> bool
    ensures { result ≡ is_form_type text.now }
{
    is_same_word(b"application/x-www-form-urlencoded", text)
}

fn is_same_word(word: &[u8], text: &[u8]) -> bool
    ensures { result ≡ str_eq_ignore_ascii_case word.now text.now }
{
    word.eq_ignore_ascii_case(text)
}

fn is_urlencoded(processor: Processor) -> bool
    ensures { result ≡ is_urlencoded processor }
{
    matches!(processor, Processor::Urlencoded)
}

/// The bytes of a body that the limit leaves.
pub(crate) fn left_of(body: &[u8], opened: OpenedBody) -> &[u8]
    ensures { result.now ≡ left_of body.now opened }
{
    if opened.limit < body.len() as u64 {
        return body.split_at(opened.limit as usize).0;
    }
    body
}

/// The arguments in an opened body.
pub(crate) fn posted(
    alloc: Global,
    body: &[u8],
    opened: OpenedBody,
) -> Result<Seq<NameValue>, NoMemory>
    ensures { IfOk result (λ rows. rows ≡ posted body.now (Some opened)) }
{
    if is_urlencoded(opened.processor) {
        argument_rows(alloc, left_of(body, opened))
    } else {
        Ok(Seq::new(alloc))
    }
}

pub(crate) fn is_longer(body: &[u8], opened: Option<OpenedBody>) -> bool
    ensures { result ≡ is_longer body.now opened }
{
    match opened {
        Some(opened) => opened.limit < body.len() as u64,
        None => false,
    }
}

pub(crate) fn flag_text(flag: bool) -> &'static [u8]
    ensures { result.now ≡ flag_text flag }
{
    if flag { b"1" } else { b"0" }
}

/// How many bytes the names and values of both lists have, in digits.
pub(crate) fn sizes_text(
    alloc: Global,
    rows: &Seq<NameValue>,
    others: &Seq<NameValue>,
) -> Result<Bytes, NoMemory>
    ensures { IfOk result (λ text. text ≡ decimal (size_of rows.now + size_of others.now)) }
{
    let sum = size_of(rows.as_slice()) + size_of(others.as_slice());
    let text = sum.to_string(alloc)?;
    Ok(Bytes::from_vec(text.into_bytes()))
}
