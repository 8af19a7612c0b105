ghost use Rattle.std.specs.Prelude.{◌≡◌, ◌≤◌, List, Option, ℕ};
ghost use Rattle.waf_io.specs.Counts.{Rose};
ghost use Rattle.waf_io.specs.Source.{CountsEnd, Reads};

/// What a read gave.
#[derive(Clone, Copy, Debug, PartialEq, Eq)]
pub enum Got {
    /// So many bytes stand at the front of the buffer: at least one, where the buffer has room.
    Bytes(u64),
    /// Nothing is left.
    End,
    /// The read failed, and nothing was taken.
    Failed,
}

/// Bytes that are read.
pub trait Source {
    /// The bytes that are left, where they are told.
    ghost left: { Self → Option (List ℕ) };

    /// How often a read failed. The count stands still at the end of u64.
    ghost faults: { Self → ℕ };

    /// How often a read said that nothing is left.
    ghost ends: { Self → ℕ };

    /// Hands over the next bytes, as many as fit and as are there by now.
    fn read(&mut self, into: &mut [u8]) -> Got
        ensures bytes { Reads result into.new (left self.old) (left self.new) }
        ensures later { faults self.old ≤ faults self.new }
        ensures cause { result ≡ Got.Failed → Rose (faults self.old) (faults self.new) }
        ensures end { CountsEnd result (ends self.old) (ends self.new) };
}
