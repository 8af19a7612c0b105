//! The text of rules: its logical lines, and the words of a line. Both are functions of the bytes,
//! and both say exactly which fault is the first.
//!
//! ```text
//! for line in lines_of(alloc, text)?.as_slice() {
//!     let words = words_of(alloc, line)?;
//! }
//! ```
//!
//! What they mean is `lines_of` of `specs/Lines.antt` and `words` of `specs/Words.antt`.
#![tactic(auto)]

pub mod characters;
mod faults;
mod line;
mod lines;
mod margins;
mod quotes;
mod words;

pub use faults::{TextFault, WordFault};
pub use line::Line;
pub use lines::{is_passed_over, lines_of, trimmed, written_lines_are_read};
pub use margins::{Margin, is_blank_byte, trim_end, trim_start};
pub use quotes::read_quoted;
pub use words::{one_reading_of_a_line, words_of, written_words_are_read};
