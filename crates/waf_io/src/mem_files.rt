ghost use Rattle.std.specs.Prelude.{◌≡◌, ◌≢◌, ◌↔◌, ◌≤◌, [], Some, true};
ghost use Rattle.std.specs.Option.{option_copied};
ghost use Rattle.waf_io.specs.Counts.{Rose};
ghost use Rattle.waf_io.specs.Files.{Answers, content_of, IsWithin};
ghost use Rattle.waf_io.specs.Schedule.{after_call, fails_at, fails_next};

use crate::schedule::Schedule;
use crate::{FileAnswer, Files};
use std::alloc::Global;
use std::marker::Model;
use waf_plain::{Bytes, NoMemory, Seq};

/// A file in memory.
#[derive(Drop)]
pub struct MemFile {
    pub name: Bytes,
    pub content: Bytes,
}

/// Files in memory. No reading of them fails. Of two with one name the first counts.
#[derive(Drop)]
pub struct InfallibleFiles {
    files: Seq<MemFile>,
}

impl Model for InfallibleFiles {
    ghost use Rattle.std.specs.Prelude.{List};
    ghost use Rattle.waf_io.specs.declared.mem_files.MemFile.{MemFile};

    ghost Value = { List MemFile };

    ghost view = { λ s. s.files };
}

impl InfallibleFiles {
    /// These files.
    pub fn new(files: Seq<MemFile>) -> InfallibleFiles
        ensures { result ≡ files }
    {
        InfallibleFiles { files }
    }
}

impl Files for InfallibleFiles {
    ghost content = { λ s. Some (content_of s) };

    ghost faults = { λ s. 0 };

    fn read_file(&mut self, alloc: Global, name: &[u8], most: u64) -> FileAnswer
        ensures answer { Answers result (Some (content_of self.old)) name.now most }
        ensures within { IsWithin result most }
        ensures same { self.new ≡ self.old }
        ensures read { result ≢ FileAnswer.Failed }
    {
        match find(self.files.as_slice(), name) {
            None => FileAnswer::Absent,
            Some(content) if content.len() as u64 > most => FileAnswer::TooLong,
            Some(content) => match Bytes::copy(alloc, content) {
                Ok(copy) => FileAnswer::Content(copy),
                Err(NoMemory) => FileAnswer::NoMemory,
            },
        }
    }
}

// The content of the first file with that name.
fn find<'a>(files: &'a [MemFile], name: &[u8]) -> Option<&'a [u8]>
    ensures { option_copied result ≡ content_of files.now name.now }
{
    for file in files {
        if file.name.as_slice() == name {
            return Some(file.content.as_slice());
        }
    }
    None
}

/// Files in memory, where the readings that a list names fail, counted from 0.
#[derive(Drop)]
pub struct MemFiles {
    files: InfallibleFiles,
    schedule: Schedule,
}

impl Model for MemFiles {
    ghost use Rattle.waf_io.specs.FaultyFiles.{FaultyFiles};

    ghost Value = { FaultyFiles };

    ghost view = { λ s. record { files = s.files; schedule = s.schedule } };
}

impl MemFiles {
    /// These files, failing at the calls that the list names.
    pub fn new(files: Seq<MemFile>, failing: Seq<u64>) -> MemFiles
        ensures { result ≡ record { files = files; schedule = fails_at failing } }
    {
        MemFiles {
            files: InfallibleFiles::new(files),
            schedule: Schedule::new(failing),
        }
    }
}

impl Files for MemFiles {
    ghost content = { λ s. Some (content_of s.files) };

    ghost faults = { λ s. s.schedule.faults };

    fn read_file(&mut self, alloc: Global, name: &[u8], most: u64) -> FileAnswer
        ensures answer { Answers result (Some (content_of self.old.files)) name.now most }
        ensures within { IsWithin result most }
        ensures same { self.new.files ≡ self.old.files }
        ensures later { self.old.schedule.faults ≤ self.new.schedule.faults }
        ensures cause { result ≡ FileAnswer.Failed → Rose self.old.schedule.faults self.new.schedule.faults }
        ensures fails { (result ≡ FileAnswer.Failed) ↔ (fails_next self.old.schedule ≡ true) }
        ensures counted { self.new.schedule ≡ after_call self.old.schedule }
    {
        if self.schedule.fails_next() {
            return FileAnswer::Failed;
        }
        self.files.read_file(alloc, name, most)
    }
}
