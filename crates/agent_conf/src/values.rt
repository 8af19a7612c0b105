ghost use Rattle.std.specs.Prelude.{◌≡◌, option_map};
ghost use Rattle.std.specs.List.{list_all};
ghost use Rattle.toml.specs.Data.{as_bool, get_member};
ghost use Rattle.toml.specs.View.{items_view, table_view, view};
ghost use Rattle.agent_conf.specs.Reading.{Reads};
ghost use Rattle.agent_conf.specs.Values.{is_plain_byte, maybe, number_in, plain_text, rules_in, text_in, texts_in, where_absent};

use crate::ConfFault;
use crate::fault::bad_value;
use crate::limits::{FILE_NAME_LIMIT, MIN_NAME_BYTE, NAME_LIMIT};
use crate::table::value_at;
use std::alloc::Global;
use toml::{Table, Value};
use waf_plain::{Bytes, Seq};

// A whole number from the one to the other, if the key is there.
pub(crate) fn number(
    alloc: Global,
    table: &Table,
    key: &str,
    least: u32,
    most: u32,
) -> Result<Option<u32>, ConfFault>
    ensures { Reads result (maybe (number_in least most) (get_member key.now (table_view table.now))) key.now }
{
    let Some(value) = value_at(table, key) else {
        return Ok(None);
    };
    match number_in(value, least, most) {
        Some(number) => Ok(Some(number)),
        None => Err(bad_value(alloc, key)),
    }
}

fn number_in(value: &Value, least: u32, most: u32) -> Option<u32>
    ensures { result ≡ number_in least most (view value.now) }
{
    let number = value.as_integer()?;
    if i64::from(least) <= number && number <= i64::from(most) {
        Some(number as u32)
    } else {
        None
    }
}

// A text of so many bytes, if the key is there.
pub(crate) fn text(
    alloc: Global,
    table: &Table,
    key: &str,
    least: usize,
    most: usize,
) -> Result<Option<Bytes>, ConfFault>
    ensures { Reads result (maybe (text_in least most) (get_member key.now (table_view table.now))) key.now }
{
    let Some(value) = value_at(table, key) else {
        return Ok(None);
    };
    match text_in(value, least, most) {
        Some(text) => Ok(Some(Bytes::copy(alloc, text)?)),
        None => Err(bad_value(alloc, key)),
    }
}

fn text_in(value: &Value, least: usize, most: usize) -> Option<&[u8]>
    ensures { option_map (λ t. t.now) result ≡ text_in least most (view value.now) }
{
    let text = value.as_str()?.as_bytes();
    if least <= text.len() && text.len() <= most {
        Some(text)
    } else {
        None
    }
}

// A name of an application, if the key is there.
pub(crate) fn plain(alloc: Global, table: &Table, key: &str) -> Result<Option<Bytes>, ConfFault>
    ensures { Reads result (maybe plain_text (get_member key.now (table_view table.now))) key.now }
{
    let Some(value) = value_at(table, key) else {
        return Ok(None);
    };
    match plain_text(value) {
        Some(text) => Ok(Some(Bytes::copy(alloc, text)?)),
        None => Err(bad_value(alloc, key)),
    }
}

fn plain_text(value: &Value) -> Option<&[u8]>
    ensures { option_map (λ t. t.now) result ≡ plain_text (view value.now) }
{
    match text_in(value, 0, NAME_LIMIT) {
        Some(text) if is_plain(text) => Some(text),
        _ => None,
    }
}

fn is_plain(text: &[u8]) -> bool
    ensures { result ≡ list_all is_plain_byte text.now }
{
    text.iter().all(|byte| is_plain_byte(*byte))
}

fn is_plain_byte(byte: u8) -> bool
    ensures { result ≡ is_plain_byte byte }
{
    byte >= MIN_NAME_BYTE
}

// True or false, and `absent` where the key is not there.
pub(crate) fn flag(alloc: Global, table: &Table, key: &str, absent: bool) -> Result<bool, ConfFault>
    ensures { Reads result (where_absent absent as_bool (get_member key.now (table_view table.now))) key.now }
{
    let Some(value) = value_at(table, key) else {
        return Ok(absent);
    };
    match value.as_bool() {
        Some(flag) => Ok(flag),
        None => Err(bad_value(alloc, key)),
    }
}

// A list of names of files.
pub(crate) fn texts(alloc: Global, table: &Table, key: &str) -> Result<Seq<Bytes>, ConfFault>
    ensures { Reads result (rules_in (get_member key.now (table_view table.now))) key.now }
{
    match value_at(table, key) {
        None => Err(bad_value(alloc, key)),
        Some(value) => match value.as_array() {
            None => Err(bad_value(alloc, key)),
            Some(items) => texts_of(alloc, items.as_slice(), key),
        },
    }
}

fn texts_of(alloc: Global, items: &[Value], key: &str) -> Result<Seq<Bytes>, ConfFault>
    ensures { Reads result (texts_in (items_view items.now)) key.now }
{
    let mut texts = Seq::new(alloc);
    for item in items {
        match text_in(item, 1, FILE_NAME_LIMIT) {
            Some(text) => texts.push(Bytes::copy(alloc, text)?)?,
            None => return Err(bad_value(alloc, key)),
        }
    }
    Ok(texts)
}
