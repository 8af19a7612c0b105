ghost use Rattle.std.specs.Prelude.{◌≡◌, ◌++◌, ◌<◌, ◌≤◌, ◌+◌, [], List, ℕ, true, length, take, drop, map, slice_index_or, nat_le, IfOk, OnOk, OnErr};
ghost use Rattle.std.specs.Char.{to_ascii_lowercase};
ghost use Rattle.web_parts.specs.declared.row.NameValue.{NameValue as TheRow};
ghost use Rattle.sec_collect.specs.declared.variables.TheConstants.{VARIABLES_LIMIT};
ghost use Rattle.sec_collect.specs.Row.{is_named, size_of};
ghost use Rattle.sec_collect.specs.Variables.{ArePut, put, put_within, without};

use crate::sizes::{is_named, others_size};
use std::alloc::{AllocError, Global};
use std::marker::Model;
use std::mem;
use waf_plain::{Bytes, NoMemory, Seq};
use web_parts::NameValue;

// How many bytes the names and values of a transaction's variables may have together.
const VARIABLES_LIMIT: u128 = 65536;

/// The variables of TX, in the order in which they were first put. Nothing but puts and deletions makes
/// them.
#[derive(Debug, Drop)]
pub struct Variables {
    rows: Seq<NameValue>,
}

impl Model for Variables {
    ghost use Rattle.std.specs.Prelude.{List};
    ghost use Rattle.web_parts.specs.declared.row.NameValue.{NameValue};
    ghost use Rattle.sec_collect.specs.Variables.{ArePut};

    ghost Value = { List NameValue };

    ghost view = { λ v. v.rows };

    ghost invariant = { λ v. ArePut v.rows };
}

impl Variables {
    /// No variables. It takes no memory.
    pub fn new(alloc: Global) -> Variables
        ensures { result ≡ [] }
    {
        Variables {
            rows: Seq::new(alloc),
        }
    }

    /// The variables as rows, in order.
    pub fn as_slice(&self) -> &[NameValue]
        ensures rows { result.now ≡ self.now }
        ensures put { ArePut self.now }
    {
        self.rows.as_slice()
    }
}

impl Clone for Variables {
    ghost is_clone = { λ a b. b ≡ a };

    fn clone(&self) -> Result<Variables, AllocError> {
        let rows = self.rows.clone()?;
        Ok(Variables { rows })
    }
}

/// Gives a variable of TX this value, in the place of its old one or at the end of the list. Names are
/// found without regard to case, and kept in lower case. Where the names and values would then have
/// more than 65536 bytes together, nothing changes.
pub fn put_variable(
    alloc: Global,
    tx: &mut Variables,
    name: &[u8],
    value: &[u8],
) -> Result<(), NoMemory>
    ensures ok { OnOk result (tx.new ≡ put_within name.now value.now tx.old) }
    ensures err { OnErr result (tx.new ≡ tx.old) }
{
    if !fits(tx.rows.as_slice(), name, value) {
        return Ok(());
    }
    put(alloc, &mut tx.rows, name, value)
}

/// Takes a variable of TX away, if it is there. It takes no memory.
pub fn delete_variable(alloc: Global, tx: &mut Variables, name: &[u8])
    ensures { tx.new ≡ without name.now tx.old }
{
    let rows = mem::replace(&mut tx.rows, Seq::new(alloc));
    tx.rows = without(rows, name);
}

fn without(rows: Seq<NameValue>, name: &[u8]) -> Seq<NameValue>
    ensures { result ≡ without name.now rows }
{
    let mut rows = rows.into_vec();
    rows.retain(|row| !name.eq_ignore_ascii_case(row.name.as_slice()));
    Seq::from_vec(rows)
}

// Whether the other variables leave room for this one.
fn fits(rows: &[NameValue], name: &[u8], value: &[u8]) -> bool
    ensures { result
        ≡ nat_le (size_of (without name.now rows.now) + (length name.now + length value.now)) VARIABLES_LIMIT }
{
    others_size(rows, name) + (name.len() as u128 + value.len() as u128) <= VARIABLES_LIMIT
}

fn put(alloc: Global, rows: &mut Seq<NameValue>, name: &[u8], value: &[u8]) -> Result<(), NoMemory>
    ensures ok { OnOk result (rows.new ≡ put name.now value.now rows.old) }
    ensures err { OnErr result (rows.new ≡ rows.old) }
{
    let value = Bytes::copy(alloc, value)?;
    let place = place_of(rows.as_slice(), name);
    if place < rows.as_slice().len() {
        rows.as_mut_slice()[place].value = value;
        return Ok(());
    }
    let name = lowered(alloc, name)?;
    rows.push(NameValue { name, value })
}

fn lowered(alloc: Global, name: &[u8]) -> Result<Bytes, NoMemory>
    ensures { IfOk result (λ text. text ≡ map to_ascii_lowercase name.now) }
{
    let mut text = Vec::from_slice(alloc, name)?;
    text.make_ascii_lowercase();
    Ok(Bytes::from_vec(text))
}

// Where the variable stands, or the number of them.
fn place_of(rows: &[NameValue], name: &[u8]) -> usize
    ensures within { result ≤ length rows.now }
    ensures before { (value : List ℕ) → put name.now value rows.now
        ≡ take result rows.now ++ put name.now value (drop result rows.now) }
    ensures there { (d : TheRow) → result < length rows.now
        → is_named name.now (slice_index_or rows.now result d) ≡ true }
{
    for (place, row) in rows.iter().enumerate() {
        if is_named(name, row) {
            return place;
        }
    }
    rows.len()
}
