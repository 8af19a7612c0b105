//! Lines that are written in parts, so that they take no memory.
ghost use Rattle.std.specs.Prelude.{◌≡◌, ◌≤◌, ◌++◌, decimal};
ghost use Rattle.waf_io.specs.Counts.{Rose};
ghost use Rattle.control.specs.Written.{IsWritten};

use waf_io::{Sink, Wrote, write_whole};

// Writes a text.
pub fn write_text<K: Sink>(output: &mut K, text: &[u8]) -> Wrote
    ensures written { IsWritten result text.now (K.held output.old) (K.held output.new) }
    ensures later { K.faults output.old ≤ K.faults output.new }
    ensures cause { result ≡ Wrote.Failed → Rose (K.faults output.old) (K.faults output.new) }
{
    write_whole(output, text)
}

// Writes one text and then another.
pub fn write_both<K: Sink>(output: &mut K, first: &[u8], second: &[u8]) -> Wrote
    ensures written { IsWritten result (first.now ++ second.now) (K.held output.old) (K.held output.new) }
    ensures later { K.faults output.old ≤ K.faults output.new }
    ensures cause { result ≡ Wrote.Failed → Rose (K.faults output.old) (K.faults output.new) }
{
    match write_text(output, first) {
        Wrote::All => write_text(output, second),
        Wrote::Failed => Wrote::Failed,
    }
}

// Writes a text and then a number.
pub fn write_number<K: Sink>(output: &mut K, text: &[u8], number: u64) -> Wrote
    ensures written { IsWritten result (text.now ++ decimal number) (K.held output.old) (K.held output.new) }
    ensures later { K.faults output.old ≤ K.faults output.new }
    ensures cause { result ≡ Wrote.Failed → Rose (K.faults output.old) (K.faults output.new) }
{
    let mut buffer = itoa::Buffer::new();
    write_both(output, text, buffer.format(number).as_bytes())
}
