ghost use Rattle.std.specs.Prelude.{◌≡◌, ◌≤◌, ◌++◌, List, Option, ℕ};
ghost use Rattle.waf_io.specs.Counts.{Rose};
ghost use Rattle.waf_io.specs.Sink.{Adds, Writes};

/// What a write took.
#[derive(Clone, Copy, Debug, PartialEq, Eq)]
pub enum Took {
    /// So many bytes of the piece, from its front: at least one, where it has one.
    Bytes(u64),
    /// The write failed, and nothing was taken.
    Failed,
}

/// Bytes that are written.
pub trait Sink {
    /// The bytes that are held, where they are told.
    ghost held: { Self → Option (List ℕ) };

    /// How often a write failed. The count stands still at the end of u64.
    ghost faults: { Self → ℕ };

    /// Takes the first bytes of a piece.
    fn write(&mut self, piece: &[u8]) -> Took
        ensures bytes { Writes result piece.now (held self.old) (held self.new) }
        ensures later { faults self.old ≤ faults self.new }
        ensures cause { result ≡ Took.Failed → Rose (faults self.old) (faults self.new) };
}

/// How a writing of several pieces ended.
#[derive(Clone, Copy, Debug, PartialEq, Eq)]
pub enum Wrote {
    All,
    /// A write failed. The sink holds what it took before.
    Failed,
}

/// Writes all the bytes, or stops at the first fault.
pub fn write_whole<K: Sink>(sink: &mut K, bytes: &[u8]) -> Wrote
    ensures all { result ≡ Wrote.All → Adds (K.held sink.old) bytes.now (K.held sink.new) }
    ensures front { (front : List ℕ) × (rest : List ℕ) × (front ++ rest ≡ bytes.now)
        × Adds (K.held sink.old) front (K.held sink.new) }
    ensures later { K.faults sink.old ≤ K.faults sink.new }
    ensures cause { result ≡ Wrote.Failed → Rose (K.faults sink.old) (K.faults sink.new) }
{
    let mut rest = bytes;
    while !rest.is_empty() {
        match sink.write(rest) {
            Took::Bytes(count) => rest = &rest[count as usize..],
            Took::Failed => return Wrote::Failed,
        }
    }
    Wrote::All
}
