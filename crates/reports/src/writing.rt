ghost use Rattle.std.specs.Prelude.{◌≡◌, ◌≢◌};
ghost use Rattle.waf_io.specs.Counts.{Rose};
ghost use Rattle.reports.specs.Report.{Reports};

use crate::exit_status::WRITE_FAULT;
use waf_io::{Sink, Wrote, write_whole};

/// Writes the bytes, and answers the status, or that a write failed.
pub fn report<K: Sink>(output: &mut K, bytes: &[u8], status: u8) -> u8
    ensures written { Reports result status bytes.now (K.held output.old) (K.held output.new) }
    ensures cause { result ≢ status → Rose (K.faults output.old) (K.faults output.new) }
{
    match write_whole(output, bytes) {
        Wrote::All => status,
        Wrote::Failed => WRITE_FAULT,
    }
}
