//! The table.
ghost use Rattle.std.specs.Prelude.{◌≡◌, ℕ, ◌<◌, ◌≤◌, ◌++◌, ◌∷◌, [], IfOk, None, Some, length, nat_eq, remove, replicate, slice_get, slice_set};
ghost use Rattle.row_table.specs.Table.{Changed, listed, row_at, with_entered, with_row, without_row};

use std::alloc::Global;
use std::marker::Model;
use waf_plain::NoMemory;

/// Rows by place, and the places that hold one in the order in which their rows entered.
#[derive(Drop)]
pub struct RowTable<T> {
    rows: Vec<Option<T>>,
    order: Vec<u32>,
    free: Vec<u32>,
}

impl<T> Model for RowTable<T> {
    ghost use Rattle.std.specs.Prelude.{◌≤◌, length, vec_capacity};
    ghost use Rattle.row_table.specs.Table.{Table};
    ghost use Rattle.row_table.specs.Keeping.{IsTable};

    ghost Value = { Table T };

    ghost view = { λ t. record { rows = t.rows.items; order = t.order.items } };

    ghost invariant = { λ t. IsTable t.rows.items t.order.items t.free.items
        × (length t.rows.items ≤ vec_capacity t.order) × (length t.rows.items ≤ vec_capacity t.free) };
}

impl<T> RowTable<T> {
    /// How many rows there are.
    pub fn len(&self) -> u32
        ensures count { result ≡ length self.now.order }
        ensures listed { result ≡ length (listed self.now) }
        ensures within { result ≤ length self.now.rows }
    {
        self.order.len() as u32
    }

    /// Whether each place holds a row.
    pub fn is_full(&self) -> bool
        ensures { result ≡ nat_eq (length self.now.order) (length self.now.rows) }
    {
        self.order.len() == self.rows.len()
    }

    /// The place of the row that stands there in the list, counted from 0.
    pub fn place(&self, at: u32) -> u32
        requires { at < length self.now.order }
        ensures place { slice_get self.now.order at ≡ Some result }
        ensures row { row_at self.now.rows result ≡ slice_get (listed self.now) at }
    {
        self.order[at as usize]
    }

    /// The row that stands there in the list, counted from 0.
    pub fn get(&self, at: u32) -> &T
        requires { at < length (listed self.now) }
        ensures { slice_get (listed self.now) at ≡ Some result.now }
    {
        self.row(self.place(at))
    }

    /// The row at a place that holds one.
    pub fn row(&self, place: u32) -> &T
        requires { (x : T) × (row_at self.now.rows place ≡ Some x) }
        ensures row { row_at self.now.rows place ≡ Some result.now }
        ensures listed { (at : ℕ) × (slice_get (listed self.now) at ≡ Some result.now) }
    {
        match &self.rows[place as usize] {
            Some(row) => row,
            None => unreachable!(),
        }
    }

    /// Each row at a place stands in the list. It does nothing.
    pub fn each_row_is_listed(&self)
        ensures { (place : ℕ) (x : T) → row_at self.now.rows place ≡ Some x → (at : ℕ) × (slice_get (listed self.now) at ≡ Some x) }
    {
        let _rows = &self.rows;
    }

    /// Puts a row at a free place, after all others in the list, and gives the place.
    pub fn enter(&mut self, row: T) -> u32
        requires { length (listed self.old) < length self.old.rows }
        ensures free { (result < length self.old.rows) × (row_at self.old.rows result ≡ None) }
        ensures table { self.new ≡ with_entered self.old result row }
        ensures listed { listed self.new ≡ listed self.old ++ row ∷ [] }
    {
        let Some(place) = self.free.pop() else {
            unreachable!()
        };
        put(&mut self.rows[place as usize], row);
        self.order.push_reserved(place);
        place
    }

    /// Takes the row away that stands there in the list, counted from 0. Its place is free then.
    pub fn take(&mut self, at: u32) -> T
        requires { at < length self.old.order }
        ensures row { slice_get (listed self.old) at ≡ Some result }
        ensures table { self.new ≡ without_row self.old at }
        ensures listed { listed self.new ≡ remove (listed self.old) at }
    {
        let place = self.order.remove(at as usize);
        let row = take_out(&mut self.rows[place as usize]);
        self.free.push_reserved(place);
        row
    }

    /// Puts another row in the place of the one that stands there in the list, and gives that one.
    pub fn replace(&mut self, at: u32, row: T) -> T
        requires { at < length self.old.order }
        ensures row { slice_get (listed self.old) at ≡ Some result }
        ensures table { self.new ≡ with_row self.old at row }
        ensures listed { listed self.new ≡ slice_set (listed self.old) at row }
    {
        let place = self.order[at as usize];
        let held = &mut self.rows[place as usize];
        let old = take_out(held);
        put(held, row);
        old
    }

    /// Changes the row that stands there in the list, in its place, by a value that is handed on.
    pub fn change<V, F: FnOnce(T, V) -> T>(&mut self, at: u32, value: V, change: F)
        requires within { at < length self.old.order }
        requires callable { (row : T) → slice_get (listed self.old) at ≡ Some row → F.pre change row value }
        ensures { Changed self.old at (λ row changed. F.post change row value changed) self.new }
    {
        let place = self.place(at);
        change_held(&mut self.rows[place as usize], value, change);
    }

    /// A table of so many places, all of which are free.
    pub fn new(alloc: Global, capacity: u32) -> Result<RowTable<T>, NoMemory>
        ensures { IfOk result (λ t. (t.rows ≡ replicate capacity None) × (t.order ≡ [])) }
    {
        let order = Vec::with_capacity(alloc, capacity as usize)?;
        let mut free = Vec::with_capacity(alloc, capacity as usize)?;
        let mut rows = Vec::with_capacity(alloc, capacity as usize)?;
        for place in 0..capacity {
            rows.push_reserved(None);
            free.push_reserved(place);
        }
        Ok(RowTable { rows, order, free })
    }
}

// A row is put where there is none, and nothing is let go.
fn put<T>(place: &mut Option<T>, row: T)
    requires { place.old ≡ None }
    ensures { place.new ≡ Some row }
{
    match place.replace(row) {
        None => {}
        Some(_) => unreachable!(),
    }
}

fn take_out<T>(place: &mut Option<T>) -> T
    requires { (x : T) × (place.old ≡ Some x) }
    ensures row { place.old ≡ Some result }
    ensures rest { place.new ≡ None }
{
    match place.take() {
        Some(row) => row,
        None => unreachable!(),
    }
}

fn change_held<T, V, F: FnOnce(T, V) -> T>(place: &mut Option<T>, value: V, change: F)
    requires held { (x : T) × (place.old ≡ Some x) }
    requires callable { (x : T) → place.old ≡ Some x → F.pre change x value }
    ensures { (x y : T) × (place.old ≡ Some x) × F.post change x value y × (place.new ≡ Some y) }
{
    let row = take_out(place);
    put(place, change(row, value));
}
