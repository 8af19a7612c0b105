ghost use Rattle.std.specs.Prelude.{◌≡◌, ◌≤◌, List, Option, ℕ};
ghost use Rattle.waf_io.specs.Counts.{Rose};
ghost use Rattle.waf_io.specs.Files.{Answers, IsWithin};

use std::alloc::Global;
use waf_plain::Bytes;

/// What a reading of a file gave.
#[derive(Debug, Drop)]
pub enum FileAnswer {
    Content(Bytes),
    /// There is no file of that name.
    Absent,
    /// The file has more bytes than were asked for at most.
    TooLong,
    /// The reading failed.
    Failed,
    NoMemory,
}

/// Files by name.
pub trait Files {
    /// What stands under each name, where it is told.
    ghost content: { Self → Option (List ℕ → Option (List ℕ)) };

    /// How often a reading failed. The count stands still at the end of u64.
    ghost faults: { Self → ℕ };

    /// The whole content of a file, where it has at most so many bytes.
    fn read_file(&mut self, alloc: Global, name: &[u8], most: u64) -> FileAnswer
        ensures answer { Answers result (content self.old) name.now most }
        ensures within { IsWithin result most }
        ensures same { content self.new ≡ content self.old }
        ensures later { faults self.old ≤ faults self.new }
        ensures cause { result ≡ FileAnswer.Failed → Rose (faults self.old) (faults self.new) };
}
