//! Rule files as a listing: directives, the files that they name, defaults, settings and removals,
//! or the first fault in reading order.
//!
//! ```text
//! let listing = read_rules(alloc, b"/etc/yefontsila/main.conf", &mut files)?;
//! ```
//!
//! What it means is `listing` of `specs/Listing.antt`; where a read may fail is `AllOpen` of
//! `specs/Places.antt`.
#![tactic(auto)]

mod addresses;
mod at;
mod defaults;
mod directive;
mod faults;
mod files;
mod items;
mod links;
mod modes;
mod names;
mod operators;
mod reading;
mod removals;
mod settings;
mod steps;
mod texts;

pub use faults::{Fault, Kind};
pub use files::{fault_is_the_first, read_all, read_rules};
pub use names::name_beside;
