//! Where a row stands in the list: by its number, in few steps, since numbers ascend.
ghost use Rattle.std.specs.Prelude.{◌≡◌, Some, slice_get};
ghost use Rattle.row_table.specs.Table.{listed, row_at};
ghost use Rattle.hall_core.specs.Found.{Ascending, IsFirstAt, IsSought};
ghost use Rattle.hall_core.specs.State.{is_running, runs};
ghost use Rattle.hall_core.specs.Step.{IsRunning};
ghost use Rattle.hall_core.specs.declared.row.Row.{Row};

use crate::row::{Row, Stage};
use row_table::RowTable;

/// Whether a row is being judged.
pub(crate) fn is_running<P>(stage: &Stage<P>) -> bool
    ensures { result ≡ is_running stage.now }
{
    match stage {
        Stage::Running => true,
        Stage::Parked { .. } => false,
    }
}

/// Where the row with a number stands.
pub(crate) fn place_of<P>(table: &RowTable<Row<P>>, number: u64) -> Option<u32>
    requires { Ascending (listed table.now) }
    ensures { IsSought (listed table.now) number result }
{
    let mut low = 0;
    let mut high = table.len();
    while low < high {
        let middle = low + (high - low) / 2;
        let found = table.get(middle).number;
        if found == number {
            return Some(middle);
        }
        if found < number {
            low = middle + 1;
        } else {
            high = middle;
        }
    }
    None
}

/// Where the row of a ticket stands, which is running.
pub(crate) fn place_of_running<P>(table: &RowTable<Row<P>>, number: u64) -> u32
    requires ascending { Ascending (listed table.now) }
    requires running { IsRunning (listed table.now) number }
    ensures { IsFirstAt (runs number) (listed table.now) result }
{
    match place_of(table, number) {
        Some(at) => at,
        None => unreachable!(),
    }
}

/// Where the row at a place stands.
pub(crate) fn at_place<P>(table: &RowTable<Row<P>>, place: u32) -> u32
    requires ascending { Ascending (listed table.now) }
    requires held { (row : Row P) × (row_at table.now.rows place ≡ Some row) }
    ensures { slice_get (listed table.now) result ≡ row_at table.now.rows place }
{
    let number = table.row(place).number;
    match place_of(table, number) {
        Some(at) => at,
        None => unreachable!(),
    }
}
