use shelf::Apps;
use waf_plain::Bytes;

/// A step. `R` is a handle of rules.
#[derive(Drop)]
pub enum Step<R> {
    /// A connection is opened.
    Open(u32),
    /// HAProxy sends these bytes on a connection.
    Feed(u32, Bytes),
    /// HAProxy ends its side of a connection.
    End(u32),
    /// A connection meets its next need.
    Act(u32),
    /// The clock goes on by so many units.
    Tick(u64),
    /// A shard lets go of what is due longest.
    Expire(u32),
    /// These applications are in force from here on.
    Reload(Apps<R>),
    /// How many transactions run, and how many are parked.
    Stats,
}
