ghost use Rattle.std.specs.Prelude.{◌≡◌, ◌≤◌, ◌*◌, ◌+◌, [], ◌∷◌, ◌++◌, Err, IfErr, IfSome, List, Some, drop, true, ℕ};
ghost use Rattle.waf_io.specs.Counts.{Rose};
ghost use Rattle.sec_text.specs.declared.line.Line.{Line as ReadLine};
ghost use Rattle.sec_read.specs.declared.faults.Found.{Found as FirstFault};
ghost use Rattle.sec_read.specs.declared.reading.Reading.{Reading as ReadSoFar};
ghost use Rattle.sec_read.specs.FileWords.{Named};
ghost use Rattle.sec_read.specs.Listing.{IsListing, Opener, all_handed_in, effective, handed_in, line_step, lines_from, listing, nothing_read, opened, opened_text};
ghost use Rattle.sec_read.specs.Reached.{Reaches, ReachesFiles};
ghost use Rattle.sec_read.specs.Places.{AllOpen, HandedInOpens, IncludeOpens, IsPlaceOf, LineOpens, LinesOpen, nowhere};
ghost use Rattle.sec_read.specs.Results.{Answers, IsSpot, Tells, WhereUnread, is_unread};

use crate::at::{At, lines_of_text, words_of_line};
use crate::faults::{Cause, Fault, Halt, Kind};
use crate::names::{has_wildcard_byte, name_beside};
use crate::reading::Reading;
use crate::steps::read_directive;
use crate::texts::fetch;
use sec_ast::Listing;
use sec_text::Line;
use std::alloc::Global;
use waf_io::Files;
use waf_plain::{Bytes, Seq};

// How deep a file may stand below the one that was handed in.
const DEPTH_LIMIT: u8 = 8;

// The lines of the text that a word in a line names.
fn open_text<F: Files>(
    alloc: Global,
    files: &mut F,
    at: At<'_>,
    word: &[u8],
    name: &[u8],
    reading: &mut Reading,
) -> Result<Seq<Line>, Halt>
    ensures same { F.content files.new ≡ F.content files.old }
    ensures later { F.faults files.old ≤ F.faults files.new }
    ensures cause { IfErr result (λ halt. is_unread halt ≡ true → Rose (F.faults files.old) (F.faults files.new)) }
    ensures place { IfErr result (λ halt. WhereUnread halt (IsSpot at.entry.file.now at.entry.line (Some word.now))) }
    ensures told { IfSome (F.content files.old) (λ told.
        Tells (λ lines. (lines, reading.new)) result
        (opened_text at.entry.file.now at.entry.line word.now name.now (told name.now) reading.old)) }
{
    let text = fetch(alloc, files, at, word, name, reading.total)?;
    let lines = lines_of_text(alloc, name, text.content.as_slice())?;
    reading.total = text.total;
    Ok(lines)
}

// Reads the file that an `Include` names; `depth`: how many further depths are left.
#[cycle(reading)]
fn include<F: Files>(
    alloc: Global,
    files: &mut F,
    depth: u8,
    at: At<'_>,
    word: &[u8],
    reading: &mut Reading,
) -> Result<(), Halt>
    ensures same { F.content files.new ≡ F.content files.old }
    ensures later { F.faults files.old ≤ F.faults files.new }
    ensures cause { IfErr result (λ halt. is_unread halt ≡ true → Rose (F.faults files.old) (F.faults files.new)) }
    ensures place { IfSome (F.content files.old) (λ told.
        IfErr result (λ halt. WhereUnread halt
        (IncludeOpens told depth at.entry.file.now at.entry.line word.now reading.old))) }
    ensures told { IfSome (F.content files.old) (λ told.
        Tells (λ _. reading.new) result (opened told depth at.entry.file.now at.entry.line word.now reading.old)) }
{
    if has_wildcard_byte(word) {
        return Err(at.fault(alloc, Cause::RefusedByName, word));
    }
    if depth == 0 {
        return Err(at.fault(alloc, Cause::IncludeDepth, word));
    }
    let name = name_beside(alloc, at.file, word)?;
    let name = name.as_slice();
    let lines = open_text(alloc, files, at, word, name, reading)?;
    read_lines(alloc, files, depth - 1, name, lines.as_slice(), reading)
}

#[cycle(reading)]
fn read_line<F: Files>(
    alloc: Global,
    files: &mut F,
    depth: u8,
    file: &[u8],
    line: &Line,
    reading: &mut Reading,
) -> Result<(), Halt>
    ensures same { F.content files.new ≡ F.content files.old }
    ensures later { F.faults files.old ≤ F.faults files.new }
    ensures cause { IfErr result (λ halt. is_unread halt ≡ true → Rose (F.faults files.old) (F.faults files.new)) }
    ensures place { IfSome (F.content files.old) (λ told.
        IfErr result (λ halt. WhereUnread halt
        (LineOpens told (IncludeOpens told depth) file.now line.now reading.old))) }
    ensures told { IfSome (F.content files.old) (λ told.
        Tells (λ _. reading.new) result (line_step told (opened told depth) file.now line.now reading.old)) }
{
    let at = At {
        file,
        line: line.number,
    };
    let words = words_of_line(alloc, file, line)?;
    match read_directive(alloc, files, at, words.as_slice(), reading)? {
        None => Ok(()),
        Some(word) => include(alloc, files, depth, at, word.as_slice(), reading),
    }
}

#[cycle(reading)]
fn read_lines<F: Files>(
    alloc: Global,
    files: &mut F,
    depth: u8,
    file: &[u8],
    lines: &[Line],
    reading: &mut Reading,
) -> Result<(), Halt>
    ensures same { F.content files.new ≡ F.content files.old }
    ensures later { F.faults files.old ≤ F.faults files.new }
    ensures cause { IfErr result (λ halt. is_unread halt ≡ true → Rose (F.faults files.old) (F.faults files.new)) }
    ensures place { IfSome (F.content files.old) (λ told.
        IfErr result (λ halt. WhereUnread halt
        (LinesOpen told (opened told depth) (IncludeOpens told depth) file.now lines.now reading.old))) }
    ensures told { IfSome (F.content files.old) (λ told.
        Tells (λ _. reading.new) result (lines_from told (opened told depth) file.now lines.now reading.old)) }
{
    for line in lines {
        read_line(alloc, files, depth, file, line, reading)?;
    }
    if let Some(line) = reading.open_line() {
        return Err(At { file, line }.fault(alloc, Cause::OpenChain, b""));
    }
    Ok(())
}

// A file that was handed in, after those before it.
fn read_handed_in<F: Files>(
    alloc: Global,
    files: &mut F,
    name: &[u8],
    reading: &mut Reading,
) -> Result<(), Halt>
    ensures same { F.content files.new ≡ F.content files.old }
    ensures later { F.faults files.old ≤ F.faults files.new }
    ensures cause { IfErr result (λ halt. is_unread halt ≡ true → Rose (F.faults files.old) (F.faults files.new)) }
    ensures place { IfSome (F.content files.old) (λ told.
        IfErr result (λ halt. WhereUnread halt (HandedInOpens told name.now reading.old))) }
    ensures told { IfSome (F.content files.old) (λ told.
        Tells (λ _. reading.new) result (handed_in told name.now reading.old)) }
{
    let at = At {
        file: name,
        line: 0,
    };
    let lines = open_text(alloc, files, at, b"", name, reading)?;
    read_lines(alloc, files, DEPTH_LIMIT, name, lines.as_slice(), reading)
}

fn read_each<F: Files>(
    alloc: Global,
    files: &mut F,
    names: &[Bytes],
    reading: &mut Reading,
) -> Result<(), Halt>
    ensures same { F.content files.new ≡ F.content files.old }
    ensures later { F.faults files.old ≤ F.faults files.new }
    ensures cause { IfErr result (λ halt. is_unread halt ≡ true → Rose (F.faults files.old) (F.faults files.new)) }
    ensures place { IfSome (F.content files.old) (λ told.
        IfErr result (λ halt. WhereUnread halt (AllOpen told names.now reading.old))) }
    ensures told { IfSome (F.content files.old) (λ told.
        Tells (λ _. reading.new) result (all_handed_in told names.now reading.old)) }
{
    for name in names {
        read_handed_in(alloc, files, name.as_slice(), reading)?;
    }
    Ok(())
}

// The listing of what was read.
fn list(reading: Reading) -> Listing
    ensures { result ≡ effective reading }
{
    let settings = reading.settings;
    let list = reading.items.into_list();
    let items = reading.removals.applied(list);
    Listing {
        items,
        engine: settings.engine,
        request_body: settings.request_body,
        request_limit: settings.request_limit,
        limit_reject: settings.limit_reject,
        response_body: settings.response_body,
    }
}

#[tactic(auto, unfolding(crate::specs::Listing::listing))]
fn read_listing<F: Files>(alloc: Global, names: &[Bytes], files: &mut F) -> Result<Listing, Halt>
    ensures same { F.content files.new ≡ F.content files.old }
    ensures later { F.faults files.old ≤ F.faults files.new }
    ensures cause { IfErr result (λ halt. is_unread halt ≡ true → Rose (F.faults files.old) (F.faults files.new)) }
    ensures place { IfSome (F.content files.old) (λ told.
        IfErr result (λ halt. WhereUnread halt (AllOpen told names.now nothing_read))) }
    ensures told { IfSome (F.content files.old) (λ told. Tells (λ l. l) result (listing told names.now)) }
{
    let mut reading = Reading::nothing(alloc);
    match read_each(alloc, files, names, &mut reading) {
        Ok(()) => Ok(list(reading)),
        Err(halt) => {
            drop(reading);
            Err(halt)
        }
    }
}

#[tactic(auto, unfolding(crate::specs::Listing::listing))]
fn read_one<F: Files>(alloc: Global, name: &[u8], files: &mut F) -> Result<Listing, Halt>
    ensures same { F.content files.new ≡ F.content files.old }
    ensures later { F.faults files.old ≤ F.faults files.new }
    ensures cause { IfErr result (λ halt. is_unread halt ≡ true → Rose (F.faults files.old) (F.faults files.new)) }
    ensures place { IfSome (F.content files.old) (λ told.
        IfErr result (λ halt. WhereUnread halt (AllOpen told (name.now ∷ []) nothing_read))) }
    ensures told { IfSome (F.content files.old) (λ told. Tells (λ l. l) result (listing told (name.now ∷ []))) }
{
    let mut reading = Reading::nothing(alloc);
    match read_handed_in(alloc, files, name, &mut reading) {
        Ok(()) => Ok(list(reading)),
        Err(halt) => {
            drop(reading);
            Err(halt)
        }
    }
}

/// The listing of a file and of those that it includes, without the rules that are removed, or the
/// first fault in reading order. The name is used as it stands, and so is a name in the file that
/// begins with `/`; any other stands for one in the naming file's folder. A file has 4 MiB at most,
/// and all texts together 16 MiB; a listing has 20000 rules at most, and a rule 32 links.
pub fn read_rules<F: Files>(alloc: Global, name: &[u8], files: &mut F) -> Result<Listing, Fault>
    ensures same { F.content files.new ≡ F.content files.old }
    ensures later { F.faults files.old ≤ F.faults files.new }
    ensures told { IfSome (F.content files.old) (λ told. IsListing told (name.now ∷ []) result) }
    ensures cause { IfErr result (λ fault. fault.kind ≡ Kind.ReadFault
        → Rose (F.faults files.old) (F.faults files.new)) }
    ensures place { IfSome (F.content files.old) (λ told. IfErr result (λ fault. fault.kind ≡ Kind.ReadFault
        → IsPlaceOf told (name.now ∷ []) fault)) }
    ensures nowhere { IfErr result (λ fault. fault.kind ≡ Kind.NoMemory → fault ≡ nowhere) }
{
    match read_one(alloc, name, files) {
        Ok(listing) => Ok(listing),
        Err(halt) => Err(halt.told(alloc)),
    }
}

/// The listing of several files, read one after the other as if they were one; each is opened when
/// those before it are read through.
pub fn read_all<F: Files>(
    alloc: Global,
    names: &Seq<Bytes>,
    files: &mut F,
) -> Result<Listing, Fault>
    ensures same { F.content files.new ≡ F.content files.old }
    ensures later { F.faults files.old ≤ F.faults files.new }
    ensures told { IfSome (F.content files.old) (λ told. IsListing told names.now result) }
    ensures cause { IfErr result (λ fault. fault.kind ≡ Kind.ReadFault
        → Rose (F.faults files.old) (F.faults files.new)) }
    ensures place { IfSome (F.content files.old) (λ told. IfErr result (λ fault. fault.kind ≡ Kind.ReadFault
        → IsPlaceOf told names.now fault)) }
    ensures nowhere { IfErr result (λ fault. fault.kind ≡ Kind.NoMemory → fault ≡ nowhere) }
{
    match read_listing(alloc, names.as_slice(), files) {
        Ok(listing) => Ok(listing),
        Err(halt) => Err(halt.told(alloc)),
    }
}

/// A fault is the first: the lines before it are read without one, and what follows it, in its file
/// or in further files, does not matter.
pub fn fault_is_the_first()
    ensures line { (files : Named) (opener : Opener) (file : List ℕ) (before : List ReadLine) (line : ReadLine)
        (after : List ReadLine) (start mid : ReadSoFar) (fault : FirstFault)
        → Reaches files opener file start before mid → line_step files opener file line mid ≡ Err fault
        → lines_from files opener file (before ++ line ∷ after) start ≡ Err fault }
    ensures file { (files : Named) (before : List (List ℕ)) (name : List ℕ) (after : List (List ℕ))
        (start mid : ReadSoFar) (fault : FirstFault)
        → ReachesFiles files start before mid → handed_in files name mid ≡ Err fault
        → all_handed_in files (before ++ name ∷ after) start ≡ Err fault }
{}
