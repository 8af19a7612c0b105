ghost use Rattle.std.specs.Prelude.{◌≡◌, ◌&&◌, ◌≤◌, [], IsTrue, bytes_eq, cond, nat_le, unwrap_or};
ghost use Rattle.spop_web.specs.Names.{name_of};
ghost use Rattle.spop_web.specs.Taking.{emptied, without};
ghost use Rattle.spop_web.specs.Values.{address_in, application_in, given, identifier_in, method_in};
ghost use Rattle.spop_web.specs.Values.{natural, number_of, port_in, present, status_in, text_in, text_within, within};

use crate::Arg;
use spop_data::{Data, Pair};
use std::alloc::Global;
use std::mem;
use waf_plain::Bytes;
use web_parts::Address;

// The longest identifier, and the longest name of an application, in bytes.
const MAX_NAME: u16 = 256;

const MAX_PORT: u16 = 65535;

// The status codes that a response can have.
const MIN_STATUS: u16 = 100;

const MAX_STATUS: u16 = 999;

// Takes the values of the arguments of that name out, and answers the last of them; NULL is left there.
pub(crate) fn take(args: &mut [Pair], arg: Arg) -> Data
    ensures value { present result ≡ given arg args.old }
    ensures args { args.new ≡ without arg args.old }
{
    let mut last = Data::Null;
    for pair in args.iter_mut() {
        last = later(last, pair, arg);
    }
    last
}

// The value of the pair, if it has that name, and else the one before.
fn later(before: Data, pair: &mut Pair, arg: Arg) -> Data
    ensures value { result ≡ cond (bytes_eq pair.old.name (name_of arg)) pair.old.value before }
    ensures pair { pair.new ≡ emptied (name_of arg) pair.old }
{
    if same(pair.name.as_slice(), arg.name()) {
        mem::replace(&mut pair.value, Data::Null)
    } else {
        before
    }
}

fn same(a: &[u8], b: &[u8]) -> bool
    ensures { result ≡ bytes_eq a.now b.now }
{
    a == b
}

// A text, which is empty where it is absent; `None` where the value has another type.
pub(crate) fn text_in(alloc: Global, value: Option<Data>) -> Option<Bytes>
    ensures { result ≡ text_in value }
{
    match value {
        None => Some(Bytes::new(alloc)),
        Some(Data::Text(text)) => Some(text),
        Some(Data::Binary(text)) => Some(text),
        Some(_) => None,
    }
}

// The text, which is empty where there is none.
pub(crate) fn or_empty(alloc: Global, text: Option<Bytes>) -> Bytes
    ensures { result ≡ unwrap_or text [] }
{
    text.unwrap_or(Bytes::new(alloc))
}

// A text that is not empty and of at most 256 bytes.
pub(crate) fn identifier_in(alloc: Global, value: Option<Data>) -> Option<Bytes>
    ensures { result ≡ identifier_in value }
{
    text_within(alloc, value, 1, MAX_NAME)
}

// A text of at most 256 bytes.
pub(crate) fn application_in(alloc: Global, value: Option<Data>) -> Option<Bytes>
    ensures { result ≡ application_in value }
{
    text_within(alloc, value, 0, MAX_NAME)
}

// A text of so many bytes.
fn text_within(alloc: Global, value: Option<Data>, least: u16, most: u16) -> Option<Bytes>
    ensures { result ≡ text_within least most value }
{
    let Some(text) = text_in(alloc, value) else {
        return None;
    };
    if is_within(text.len() as u64, least, most) {
        Some(text)
    } else {
        None
    }
}

// A text that is not empty.
pub(crate) fn method_in(alloc: Global, value: Option<Data>) -> Option<Bytes>
    ensures { result ≡ method_in value }
{
    let Some(text) = text_in(alloc, value) else {
        return None;
    };
    if text.is_empty() { None } else { Some(text) }
}

// An address, and none where it is absent.
pub(crate) fn address_in(value: Option<Data>) -> Option<Address>
    ensures { result ≡ address_in value }
{
    match value {
        None => Some(Address::None),
        Some(Data::Ipv4(octets)) => Some(Address::V4(octets)),
        Some(Data::Ipv6(octets)) => Some(Address::V6(octets)),
        Some(_) => None,
    }
}

// A port, and none where it is absent.
pub(crate) fn port_in(value: Option<Data>) -> Option<Option<u16>>
    ensures { result ≡ port_in value }
{
    let Some(value) = value else {
        return Some(None);
    };
    match within(number_of(&value), 0, MAX_PORT) {
        None => None,
        Some(port) => Some(Some(port)),
    }
}

// A status code of three digits.
pub(crate) fn status_in(value: Option<Data>) -> Option<u16>
    ensures { result ≡ status_in value }
{
    match value {
        None => None,
        Some(value) => within(number_of(&value), MIN_STATUS, MAX_STATUS),
    }
}

// The number, if it is one of these, both ends among them.
fn within(number: Option<u64>, least: u16, most: u16) -> Option<u16>
    ensures { result ≡ within least most number }
{
    let Some(number) = number else {
        return None;
    };
    if is_within(number, least, most) {
        Some(number as u16)
    } else {
        None
    }
}

fn is_within(number: u64, least: u16, most: u16) -> bool
    ensures value { result ≡ (nat_le least number && nat_le number most) }
    ensures bound { IsTrue result → number ≤ most }
{
    u64::from(least) <= number && number <= u64::from(most)
}

// A number of any type that is not negative.
fn number_of(value: &Data) -> Option<u64>
    ensures { result ≡ number_of value.now }
{
    match value {
        Data::Int32(number) => natural(i64::from(*number)),
        Data::Uint32(number) => Some(u64::from(*number)),
        Data::Int64(number) => natural(*number),
        Data::Uint64(number) => Some(*number),
        _ => None,
    }
}

fn natural(number: i64) -> Option<u64>
    ensures { result ≡ natural number }
{
    u64::try_from(number).ok()
}
