//! The texts of case files: lines and their words, what the words of a case come to, and what is told of
//! a file.
//!
//! A line is words with blanks between them: plain, or in quotes with `\"`, `\\`, `\n`, `\r`, `\t` and
//! `\xHH`; `<NAME` stands for the content of the file NAME, as a word in quotes. Lines that are empty
//! or begin with `#` are passed over. `words_of(alloc, line)` reads the words of one.
#![tactic(auto)]

mod answer;
mod filled;
mod given;
mod lines;
mod print;
mod report;
mod word;

pub use answer::Answer;
pub use filled::{MOST, filled_words};
pub use given::{halves, items, number, pieces, small_number, word_at};
pub use lines::{case_count, is_case};
pub use report::{At, Report, place_text};
pub use word::{LineFault, Word, words_of};
