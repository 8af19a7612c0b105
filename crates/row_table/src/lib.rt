//! Rows that stay where they are put, listed in the order in which they entered. All memory is taken
//! when the table is made.
//!
//! ```text
//! let mut table = RowTable::new(alloc, 16384)?;
//! let place = table.enter(row);
//! let row = table.row(place);
//! let row = table.take(0);
//! ```
//!
//! `specs/Table.antt` says what the places hold and how the rows are listed.
#![tactic(auto)]

mod table;

pub use table::RowTable;
