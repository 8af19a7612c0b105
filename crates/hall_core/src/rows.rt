//! The rows, and what calls do to them alone.
ghost use Rattle.std.specs.Prelude.{◌≡◌, ℕ, ◌+◌, ◌<◌, ◌≤◌, ◌++◌, ◌∷◌, [], IfOk, None, Some, count_by, find, length, not, remove, slice_get, true};
ghost use Rattle.hall_core.specs.Found.{IsFirst, UpTo};
ghost use Rattle.hall_core.specs.Rows.{changed, without};
ghost use Rattle.hall_core.specs.State.{IsQuiet, has_key, is_next, is_running, parked, runs, waits};
ghost use Rattle.hall_core.specs.Step.{IsClaim, IsExpiry, IsRunning};
ghost use Rattle.hall_core.specs.declared.row.Row.{Row};
ghost use Rattle.hall_core.specs.declared.row.Stage.TheVariants.{Running};

use crate::Key;
use crate::calls::{Claim, Expiry};
use crate::keys::KeyIndex;
use crate::row::{Row, Stage};
use crate::search::{at_place, is_running, place_of_running};
use due_index::DueIndex;
use row_table::RowTable;
use std::alloc::Global;
use std::marker::Model;
use waf_plain::NoMemory;

/// The rows by place, with the deadlines of those that are parked, and the places in the order of
/// their keys.
#[derive(Drop)]
pub(crate) struct Rows<P> {
    table: RowTable<Row<P>>,
    due: DueIndex,
    by_key: KeyIndex,
}

impl<P> Model for Rows<P> {
    ghost use Rattle.std.specs.Prelude.{◌≡◌, ◌≤◌, count_by, is_some, length, not, vec_capacity};
    ghost use Rattle.row_table.specs.Table.{listed};
    ghost use Rattle.hall_core.specs.Deadlines.{Held, deadlines};
    ghost use Rattle.hall_core.specs.Found.{Ascending};
    ghost use Rattle.hall_core.specs.Keys.{IsByKey, key_at};
    ghost use Rattle.hall_core.specs.State.{is_running};

    ghost Value = { Held P };

    ghost view = { λ r. record { capacity = length r.table.rows; rows = listed r.table } };

    ghost invariant = { λ r. (r.due ≡ deadlines r.table.rows) × Ascending (listed r.table)
        × IsByKey (key_at r.table.rows) r.by_key.places.items
        × (length r.by_key.places.items ≡ length (listed r.table)) × (length r.table.rows ≤ vec_capacity r.by_key.places)
        × (count_by is_some r.due ≡ count_by (λ row. not (is_running row.stage)) (listed r.table)) };
}

impl<P> Rows<P> {
    pub(crate) fn new(alloc: Global, capacity: u32) -> Result<Rows<P>, NoMemory>
        ensures { IfOk result (λ rows. (rows.capacity ≡ capacity) × (rows.rows ≡ [])) }
    {
        let due = DueIndex::new(alloc, capacity)?;
        let by_key = KeyIndex::new(alloc, capacity)?;
        let table = RowTable::new(alloc, capacity)?;
        Ok(Rows { table, due, by_key })
    }

    pub(crate) fn len(&self) -> u32
        ensures count { result ≡ length self.now.rows }
        ensures within { result ≤ self.now.capacity }
    {
        self.table.len()
    }

    /// The row that stands there, counted from 0.
    pub(crate) fn get(&self, at: u32) -> &Row<P>
        requires { at < length self.now.rows }
        ensures { slice_get self.now.rows at ≡ Some result.now }
    {
        self.table.get(at)
    }

    /// Where the row of a key stands.
    pub(crate) fn place_of_key(&self, key: &Key) -> Option<u32>
        ensures { IsFirst (has_key key.now) self.now.rows result }
    {
        let Some(place) = self.by_key.find(&self.table, key) else {
            return None;
        };
        Some(at_place(&self.table, place))
    }

    /// Adds a row that is running, under a key that no row has.
    pub(crate) fn enter(&mut self, key: Key, number: u64)
        requires room { length self.old.rows < self.old.capacity }
        requires free { find (has_key key) self.old.rows ≡ None }
        requires last { (before : ℕ) × (before < number) × UpTo before self.old.rows }
        ensures capacity { self.new.capacity ≡ self.old.capacity }
        ensures rows { self.new.rows ≡ self.old.rows ++ (record { key = key; number = number; stage = Running }) ∷ [] }
    {
        self.table.each_row_is_listed();
        let at = self.by_key.gap(&self.table, &key);
        let stage = Stage::Running;
        let place = self.table.enter(Row { key, number, stage });
        self.by_key.insert(at, place);
    }

    fn take(&mut self, at: u32) -> Row<P>
        requires { at < length self.old.rows }
        ensures row { slice_get self.old.rows at ≡ Some result }
        ensures capacity { self.new.capacity ≡ self.old.capacity }
        ensures rows { self.new.rows ≡ remove self.old.rows at }
    {
        let place = self.table.place(at);
        self.by_key.remove(self.by_key.position(&self.table, place));
        self.due.remove(place);
        self.table.take(at)
    }

    /// Parks the row of a ticket, which is running.
    pub(crate) fn park(&mut self, number: u64, deadline: u64, value: P)
        requires { IsRunning self.old.rows number }
        ensures capacity { self.new.capacity ≡ self.old.capacity }
        ensures rows { self.new.rows ≡ changed (runs number) (parked deadline value) self.old.rows }
    {
        let at = place_of_running(&self.table, number);
        self.due.add(deadline, number, self.table.place(at));
        self.table
            .change(at, value, |row, value| park(row, deadline, value));
    }

    /// Takes the row of a ticket away, which is running.
    pub(crate) fn leave(&mut self, number: u64)
        requires { IsRunning self.old.rows number }
        ensures capacity { self.new.capacity ≡ self.old.capacity }
        ensures rows { self.new.rows ≡ without (runs number) self.old.rows }
    {
        let at = place_of_running(&self.table, number);
        end(self.take(at));
    }

    /// Takes away what is parked under a key.
    pub(crate) fn resume(&mut self, key: &Key) -> Claim<P>
        ensures reply { IsClaim self.old.rows key.now result }
        ensures capacity { self.new.capacity ≡ self.old.capacity }
        ensures rows { self.new.rows ≡ without (waits key.now) self.old.rows }
    {
        let Some(at) = self.place_waiting(key) else {
            return Claim::NotParked;
        };
        let Row { number, stage, .. } = self.take(at);
        match stage {
            Stage::Parked { value, .. } => Claim::Resumed {
                ticket: number,
                value,
            },
            Stage::Running => unreachable!(),
        }
    }

    /// Takes away what is due first.
    pub(crate) fn expire(&mut self, now: u64) -> Expiry<P>
        ensures reply { IsExpiry self.old.rows now result }
        ensures capacity { self.new.capacity ≡ self.old.capacity }
        ensures rows { self.new.rows ≡ without (is_next now self.old.rows) self.old.rows }
    {
        let Some(at) = self.place_of_next(now) else {
            return Expiry::NothingDue;
        };
        let Row { key, number, stage } = self.take(at);
        match stage {
            Stage::Parked { value, .. } => Expiry::Expired {
                ticket: number,
                key,
                value,
            },
            Stage::Running => unreachable!(),
        }
    }

    // Where the row stands that is due first, by the least of all deadlines alone.
    fn place_of_next(&self, now: u64) -> Option<u32>
        ensures place { IsFirst (is_next now self.now.rows) self.now.rows result }
        ensures quiet { result ≡ None → IsQuiet self.now.rows now }
    {
        let Some((deadline, _, place)) = self.due.least() else {
            return None;
        };
        if now < deadline {
            return None;
        }
        Some(at_place(&self.table, place))
    }

    // Where the row stands that waits under a key.
    fn place_waiting(&self, key: &Key) -> Option<u32>
        ensures { IsFirst (waits key.now) self.now.rows result }
    {
        let Some(at) = self.place_of_key(key) else {
            return None;
        };
        if is_running(&self.table.get(at).stage) {
            return None;
        }
        Some(at)
    }

    pub(crate) fn count_running(&self) -> u32
        ensures { result ≡ count_by (λ row. is_running row.stage) self.now.rows }
    {
        self.table.len() - self.due.len()
    }
}

fn park<P>(row: Row<P>, deadline: u64, value: P) -> Row<P>
    requires { is_running row.stage ≡ true }
    ensures { result ≡ parked deadline value row }
{
    let Row { key, number, stage } = row;
    match stage {
        Stage::Running => Row {
            key,
            number,
            stage: Stage::Parked { deadline, value },
        },
        Stage::Parked { .. } => unreachable!(),
    }
}

// A row that is running holds no value.
fn end<P>(row: Row<P>)
    requires { is_running row.stage ≡ true }
{
    let Row { stage, .. } = row;
    match stage {
        Stage::Running => {}
        Stage::Parked { .. } => unreachable!(),
    }
}
