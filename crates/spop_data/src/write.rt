ghost use Rattle.std.specs.Prelude.{◌≡◌, ◌++◌, ◌∷◌, ◌<◌, ◌^◌, List, ℕ, length, OnErr, OnOk};
ghost use Rattle.spop_data.specs.Data.{IsCounted, SpellsData, SpellsPair};
ghost use Rattle.spop_data.specs.Writing.{counted, data_bytes, number_bytes, pair_bytes, IsData, IsPair, Grows};

use crate::{Data, Pair, kind};
use spop_varint::write_varint;
use waf_plain::{Bytes, NoMemory};

/// Appends the value, with the flag of a BOOLEAN and no other. After an `Err` the bytes are as before.
pub fn write_data(value: &Data, out: &mut Bytes) -> Result<(), NoMemory>
    ensures ok { OnOk result (out.new ≡ out.old ++ data_bytes value.now) }
    ensures spelled { OnOk result (SpellsData (data_bytes value.now) value.now) }
    ensures err { OnErr result (out.new ≡ out.old) }
{
    let before = out.len();
    let written = put_data(value, out);
    if written.is_err() {
        out.truncate(before);
    }
    written
}

/// Appends the name and the value. After an `Err` the bytes are as before.
pub fn write_pair(pair: &Pair, out: &mut Bytes) -> Result<(), NoMemory>
    ensures ok { OnOk result (out.new ≡ out.old ++ pair_bytes pair.now) }
    ensures spelled { OnOk result (SpellsPair (pair_bytes pair.now) pair.now) }
    ensures err { OnErr result (out.new ≡ out.old) }
{
    let before = out.len();
    let written = put_pair(pair, out);
    if written.is_err() {
        out.truncate(before);
    }
    written
}

/// Appends a text after its length. After an `Err` the bytes are as before.
pub fn write_text(text: &[u8], out: &mut Bytes) -> Result<(), NoMemory>
    ensures ok { OnOk result (out.new ≡ out.old ++ counted text.now) }
    ensures spelled { IsCounted (counted text.now) text.now }
    ensures err { OnErr result (out.new ≡ out.old) }
{
    let before = out.len();
    let written = put_counted(text, out);
    if written.is_err() {
        out.truncate(before);
    }
    written
}

fn put_pair(pair: &Pair, out: &mut Bytes) -> Result<(), NoMemory>
    ensures ok { OnOk result (out.new ≡ out.old ++ pair_bytes pair.now) }
    ensures held { OnOk result (IsPair pair.now) }
    ensures grows { Grows out.old out.new }
{
    put_counted(pair.name.as_slice(), out)?;
    put_data(&pair.value, out)
}

// Each of these appends its bytes, or only some where memory runs out.
fn put_data(value: &Data, out: &mut Bytes) -> Result<(), NoMemory>
    ensures ok { OnOk result (out.new ≡ out.old ++ data_bytes value.now) }
    ensures held { OnOk result (IsData value.now) }
    ensures grows { Grows out.old out.new }
{
    match value {
        Data::Null => out.push(kind::NULL),
        Data::Bool(false) => out.push(kind::BOOLEAN),
        Data::Bool(true) => out.push(kind::BOOLEAN + kind::TRUE),
        Data::Int32(number) => put_number(kind::INT32, i64::from(*number).cast_unsigned(), out),
        Data::Uint32(number) => put_number(kind::UINT32, u64::from(*number), out),
        Data::Int64(number) => put_number(kind::INT64, number.cast_unsigned(), out),
        Data::Uint64(number) => put_number(kind::UINT64, *number, out),
        Data::Ipv4(address) => put_bytes(kind::IPV4, address, out),
        Data::Ipv6(address) => put_bytes(kind::IPV6, address, out),
        Data::Text(text) => put_text(kind::STRING, text.as_slice(), out),
        Data::Binary(text) => put_text(kind::BINARY, text.as_slice(), out),
    }
}

fn put_number(kind: u8, word: u64, out: &mut Bytes) -> Result<(), NoMemory>
    ensures ok { OnOk result (out.new ≡ out.old ++ kind ∷ number_bytes word) }
    ensures grows { Grows out.old out.new }
{
    out.push(kind)?;
    put_varint(word, out)
}

fn put_bytes(kind: u8, bytes: &[u8], out: &mut Bytes) -> Result<(), NoMemory>
    ensures ok { OnOk result (out.new ≡ out.old ++ kind ∷ bytes.now) }
    ensures grows { Grows out.old out.new }
{
    out.push(kind)?;
    out.append(bytes)
}

fn put_text(kind: u8, text: &[u8], out: &mut Bytes) -> Result<(), NoMemory>
    ensures ok { OnOk result (out.new ≡ out.old ++ kind ∷ counted text.now) }
    ensures grows { Grows out.old out.new }
{
    out.push(kind)?;
    put_counted(text, out)
}

fn put_counted(text: &[u8], out: &mut Bytes) -> Result<(), NoMemory>
    ensures ok { OnOk result (out.new ≡ out.old ++ counted text.now) }
    ensures small { length text.now < 2 ^ 64 }
    ensures grows { Grows out.old out.new }
{
    put_varint(text.len() as u64, out)?;
    out.append(text)
}

#[tactic(auto, unfolding(crate::specs::Writing::number_bytes))]
fn put_varint(value: u64, out: &mut Bytes) -> Result<(), NoMemory>
    ensures ok { OnOk result (out.new ≡ out.old ++ number_bytes value) }
    ensures grows { Grows out.old out.new }
{
    write_varint(value, out)
}
