//! The round trip of a listing: parsing a printed listing gives the same listing, with new places.
//! All functions are laws, which the contracts state; none does anything.
//!
//! ```text
//! listings_are_read_back();
//! ```
//!
//! What is printable is `IsPrintable` of `specs/Printable.antt`.
#![tactic(auto)]

mod actions;
mod bounds;
mod lines;
mod listings;
mod macros;
mod numbers;
mod operators;
mod phrases;
mod quotes;
mod readings;
mod targets;
mod variables;

pub use actions::{
    names_of_transforms, printed_link_actions_are_read, printed_rule_actions_are_read,
    printed_want_of_actions_is_read,
};
pub use bounds::bounds_are_never_met;
pub use lines::{printed_lines_end, words_of_a_line_can_be_printed, words_of_a_printed_line};
pub use listings::{lines_of_a_printed_listing, printed_directives};
pub use macros::{macros_that_were_read_can_be_printed, printed_macros_are_read};
pub use numbers::printed_numbers_are_read;
pub use operators::{names_of_operators, printed_operators_are_read};
pub use phrases::printed_words_are_read;
pub use quotes::{quoted_texts_are_read, quoted_texts_can_be_printed};
pub use readings::{
    listings_are_read_back, listings_that_were_read_can_be_printed, places_are_not_printed,
    printed_listings_are_read,
};
pub use targets::{printed_targets_are_read, targets_that_were_read_can_be_printed};
pub use variables::names_of_variables;
