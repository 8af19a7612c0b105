use crate::Closing;
use hall_core::Counts;
use sec_ast::LogLine;
use waf_plain::{Bytes, Seq};

/// What a step of several connections over one table of transactions shows.
#[derive(Debug, Drop)]
pub enum Seen {
    Nothing,
    /// What a judgement logged.
    Lines(Seq<LogLine>),
    /// What a connection wrote.
    Out(Bytes),
    Closed(Closing),
    /// A parked request that was not resumed in time, by its ticket, and what ending it logged.
    Expired { ticket: u64, lines: Seq<LogLine> },
    NothingDue,
    /// The generation of the rules that are in force from here on.
    Published(u64),
    /// No further generation can be numbered.
    Worn,
    Counts(Counts),
}
