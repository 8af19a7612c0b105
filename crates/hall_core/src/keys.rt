//! The places of the rows in the order of their keys, so that the row of a key is found by halving.
ghost use Rattle.std.specs.Prelude.{◌≡◌, ℕ, ◌<◌, ◌≤◌, [], IfOk, Some, insert, length, remove, slice_get, vec_capacity};
ghost use Rattle.hall_core.specs.Keys.{IsByKey, IsKeyCut, IsKeyFree, IsKeyPlace, IsKeySearch, key_at, key_cmp};
ghost use Rattle.row_table.specs.Table.{row_at};
ghost use Rattle.hall_core.specs.declared.row.Row.{Row};

use crate::Key;
use crate::row::Row;
use row_table::RowTable;
use std::alloc::Global;
use std::cmp::Ordering;
use waf_plain::NoMemory;

/// All its memory is taken when it is made.
#[derive(Drop)]
pub(crate) struct KeyIndex {
    places: Vec<u32>,
}

impl KeyIndex {
    /// For a table of at most so many rows, which has none yet.
    pub(crate) fn new(alloc: Global, capacity: u32) -> Result<KeyIndex, NoMemory>
        ensures { IfOk result (λ index. (index.places.items ≡ []) × (capacity ≤ vec_capacity index.places)) }
    {
        let places = Vec::with_capacity(alloc, capacity as usize)?;
        Ok(KeyIndex { places })
    }

    /// The place of the row with a key.
    pub(crate) fn find<P>(&self, table: &RowTable<Row<P>>, key: &Key) -> Option<u32>
        requires { IsByKey (key_at table.now.rows) self.now.places.items }
        ensures { IsKeyPlace (key_at table.now.rows) key.now result }
    {
        match self.search(table, key) {
            Ok(at) => Some(self.places[at]),
            Err(_) => None,
        }
    }

    /// Where the place of a row with a key that no row has is to be put.
    pub(crate) fn gap<P>(&self, table: &RowTable<Row<P>>, key: &Key) -> usize
        requires by_key { IsByKey (key_at table.now.rows) self.now.places.items }
        requires free { IsKeyFree (key_at table.now.rows) key.now }
        ensures { IsKeyCut (key_at table.now.rows) self.now.places.items key.now result result }
    {
        match self.search(table, key) {
            Ok(_) => unreachable!(),
            Err(at) => at,
        }
    }

    /// Where the place of a row stands.
    pub(crate) fn position<P>(&self, table: &RowTable<Row<P>>, place: u32) -> usize
        requires by_key { IsByKey (key_at table.now.rows) self.now.places.items }
        requires held { (row : Row P) × (row_at table.now.rows place ≡ Some row) }
        ensures { slice_get self.now.places.items result ≡ Some place }
    {
        match self.search(table, &table.row(place).key) {
            Ok(at) => at,
            Err(_) => unreachable!(),
        }
    }

    pub(crate) fn insert(&mut self, at: usize, place: u32)
        requires within { at ≤ length self.old.places.items }
        requires room { length self.old.places.items < vec_capacity self.old.places }
        ensures places { self.new.places.items ≡ insert self.old.places.items at place }
        ensures capacity { vec_capacity self.old.places ≤ vec_capacity self.new.places }
    {
        match self.places.insert(at, place) {
            Ok(()) => {}
            Err(_) => unreachable!(),
        }
    }

    pub(crate) fn remove(&mut self, at: usize)
        requires { at < length self.old.places.items }
        ensures places { self.new.places.items ≡ remove self.old.places.items at }
        ensures capacity { vec_capacity self.old.places ≤ vec_capacity self.new.places }
    {
        self.places.remove(at);
    }

    // Where the place of the row with a key stands, or where it is to be put.
    fn search<P>(&self, table: &RowTable<Row<P>>, key: &Key) -> Result<usize, usize>
        requires { IsByKey (key_at table.now.rows) self.now.places.items }
        ensures { IsKeySearch (key_at table.now.rows) self.now.places.items key.now result }
    {
        let mut low = 0;
        let mut high = self.places.len();
        while low < high {
            let middle = low + (high - low) / 2;
            match compare(&table.row(self.places[middle]).key, key) {
                Ordering::Less => low = middle + 1,
                Ordering::Equal => return Ok(middle),
                Ordering::Greater => high = middle,
            }
        }
        Err(low)
    }
}

fn compare(a: &Key, b: &Key) -> Ordering
    ensures { result ≡ key_cmp a.now b.now }
{
    let by_app = a.app.as_slice().cmp(b.app.as_slice());
    by_app.then(a.id.as_slice().cmp(b.id.as_slice()))
}
