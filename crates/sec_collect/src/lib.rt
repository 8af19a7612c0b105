//! The rows of a transaction: what each variable of the rule language holds, which of its values a
//! rule looks at, and macros with values in the places of their references.
//!
//! `Vars::new(alloc, request)?.rows(Var::ArgsGet)` borrows the arguments of a request's query. The
//! definitions are `rows_of` in `specs/Rows.antt`, `selection` in `specs/Selection.antt` and
//! `expansion` in `specs/Expansion.antt`, over the record `TransactionView`.
#![tactic(auto)]

mod address_texts;
mod body;
mod body_rows;
mod captures;
mod expansion;
mod kept_rows;
mod line_texts;
mod marks;
mod parts;
mod pieces;
mod request;
mod request_rows;
mod response_rows;
mod row_ref;
mod rows;
mod selection;
mod sizes;
mod variables;
mod vars;

pub use captures::{Captures, captured_rows};
pub use expansion::{EXPANSION_LIMIT, expand};
pub use parts::{AddedResponse, OpenedBody};
pub use request::value_named;
pub use row_ref::RowRef;
pub use rows::Rows;
pub use selection::{TargetQuery, select};
pub use variables::{Variables, delete_variable, put_variable};
pub use vars::Vars;
