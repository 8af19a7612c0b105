ghost use Rattle.std.specs.Prelude.{◌≡◌, ◌≢◌, ◌⊎◌, Bool, Err, IfSome, List, Ok, false, true, ℕ};
ghost use Rattle.waf_io.specs.Counts.{Rose};
ghost use Rattle.agent_conf.specs.declared.load_fault.LoadFault.{LoadFault};
ghost use Rattle.agent_conf.specs.Loading.{loaded};
ghost use Rattle.agent_main.specs.Check.{checked};
ghost use Rattle.agent_main.specs.Generate.{Generated};
ghost use Rattle.agent_main.specs.Listings.{listing_under};
ghost use Rattle.agent_main.specs.Replay.{Replayed};
ghost use Rattle.reports.specs.Report.{Answers, FilesFailFirst, Prints, ReadFails, Says};
ghost use Rattle.sec_ast.specs.declared.listing.Listing.{Listing};
ghost use Rattle.agent_main.specs.Run.{Exits};
ghost use Rattle.reports.specs.declared.exit_status.TheConstants.{DONE, DOOR_FAULT, OTHER_WORDS, READ_FAULT, REFUSED, UNFINISHED, WRITE_FAULT};
ghost use Rattle.command_line.specs.Words.{command_of};
ghost use Rattle.agent_main.specs.Commands.{Ran, around};
ghost use Rattle.agent_main.specs.declared.words.TheConstants.{HELP, USAGE, VERSION};
ghost use Rattle.agent_main.specs.Words.{is_other, refuses_input, serves_connection, takes_input};

use crate::check::check;
use crate::generate::generate;
use crate::once::once;
use crate::replay::replay;
use crate::words::{HELP, USAGE, VERSION};
use command_line::{Command, read_words};
use reports::exit_status::{DONE, OTHER_WORDS, OUT_OF_MEMORY};
use reports::report;
use std::alloc::Global;
use waf_io::{Files, Sink, Source};
use waf_plain::{Bytes, NoMemory, Seq};

/// Does what the words ask for, and answers the exit status. `check CONF` prints, for each application
/// of a configuration, its name and its listing in canonical text; `once RULES` serves the one
/// connection from input to output; `replay CONF` runs the script of the input over several
/// connections, and prints what each step shows, also where the slow functions judge (`--plain`);
/// `generate SEED COUNT` runs a script that it makes, and prints what became of its requests.
///
/// | Status | Comes where |
/// |---|---|
/// | 0 | the work was done; for `once`, HAProxy left, the input ended between two frames, or a health check was answered |
/// | 1 | `once` alone: the input ended within a frame, the agent left with status 3 to 10, or 2^62 bytes were taken |
/// | 2 | the words are others; the usage line was written |
/// | 3 | the configuration, a rule file or the script is refused, or is absent or too long; the line of the fault was written |
/// | 4 | reading a file or the input failed |
/// | 5 | writing failed |
/// | 6 | there was no memory |
pub fn offline_main<F: Files, S: Source, K: Sink>(
    alloc: Global,
    words: Seq<Bytes>,
    files: &mut F,
    input: &mut S,
    output: &mut K,
) -> u8
    ensures { Ran (F.content files.old) (command_of words) result
        (around (S.left input.old) (S.ends input.old) (K.held output.old)
        (F.faults files.old) (S.faults input.old) (K.faults output.old))
        (around (S.left input.new) (S.ends input.new) (K.held output.new)
        (F.faults files.new) (S.faults input.new) (K.faults output.new)) }
{
    match read_words(alloc, words.as_slice()) {
        Ok(command) => run(alloc, command, files, input, output),
        Err(NoMemory) => OUT_OF_MEMORY,
    }
}

/// Does what a command asks for, clause by clause. `serve` is no command here.
pub fn run<F: Files, S: Source, K: Sink>(
    alloc: Global,
    command: Command,
    files: &mut F,
    input: &mut S,
    output: &mut K,
) -> u8
    // Words that no command takes, or that ask for a text
    ensures usage { is_other command ≡ true
        → Says result OTHER_WORDS USAGE.now (K.held output.old) (K.held output.new) }
    ensures taken { result ≡ OTHER_WORDS → is_other command ≡ true }

    ensures help { command ≡ Command.Help
        → Says result DONE HELP.now (K.held output.old) (K.held output.new) }
    ensures version { command ≡ Command.Version
        → Says result DONE VERSION.now (K.held output.old) (K.held output.new) }

    // check, where the files are told: the listings of all applications, or the line of the first fault
    ensures checked { IfSome (F.content files.old) (λ told. (name : List ℕ) → command ≡ Command.Check name
        → Answers result (checked told name)
        (F.faults files.old) (F.faults files.new) (K.held output.old) (K.held output.new)) }

    // once, where the files are told and the rules are refused
    ensures refused { IfSome (F.content files.old) (λ told. (name line : List ℕ) →
        command ≡ Command.Once name → listing_under told name ≡ Err line
        → Prints result REFUSED line
        (F.faults files.old) (F.faults files.new) (K.held output.old) (K.held output.new)
        × (S.left input.new ≡ S.left input.old)) }

    // once, where the files are told and the rules are not refused: the connection under them
    ensures served { IfSome (F.content files.old) (λ told. (name : List ℕ) (rules : Listing) →
        command ≡ Command.Once name → listing_under told name ≡ Ok rules
        → Exits result rules (S.left input.old) (S.left input.new) (S.ends input.old) (S.ends input.new)
        (K.held output.old) (K.held output.new)
        ⊎ FilesFailFirst result (F.faults files.old) (F.faults files.new)
        (S.left input.old) (S.left input.new) (K.held output.old) (K.held output.new)) }

    // replay, where the input is told: what a run over the script shows, or the line of the first fault; what loading
    // answers is known where the files are told
    ensures replayed { IfSome (S.left input.old) (λ text.
        (plain : Bool) (name : List ℕ) → command ≡ Command.Replay plain name
        → Replayed (F.content files.old) name (F.faults files.old) (F.faults files.new) result text
        (K.held output.old) (K.held output.new)
        ⊎ (ReadFails result (F.faults files.old) (F.faults files.new) (K.held output.old) (K.held output.new)
        ⊎ ReadFails result (S.faults input.old) (S.faults input.new) (K.held output.old) (K.held output.new))) }

    // replay, where the files are told and the configuration is refused
    ensures unloaded { IfSome (F.content files.old) (λ told. (plain : Bool) (name : List ℕ) (fault : LoadFault) →
        command ≡ Command.Replay plain name → loaded told name ≡ Err fault
        → S.left input.new ≡ S.left input.old) }

    // generate: the counts of what a run over the script of a seed shows
    ensures generated { (seed count : ℕ) → command ≡ Command.Generate seed count
        → Generated result seed count (K.held output.old) (K.held output.new) }

    // What takes nothing of the input
    ensures untouched { takes_input command ≡ false → S.left input.new ≡ S.left input.old }
    ensures unread { result ≡ REFUSED → refuses_input command ≡ false
        → S.left input.new ≡ S.left input.old }

    // Causes, whatever is told
    ensures once_alone { result ≡ UNFINISHED → serves_connection command ≡ true }
    ensures no_door { result ≢ DOOR_FAULT }
    ensures read_fault { result ≡ READ_FAULT
        → Rose (F.faults files.old) (F.faults files.new) ⊎ Rose (S.faults input.old) (S.faults input.new) }
    ensures write_fault { result ≡ WRITE_FAULT → Rose (K.faults output.old) (K.faults output.new) }
{
    match command {
        Command::Check(name) => check(alloc, name.as_slice(), files, output),
        Command::Once(name) => once(alloc, name.as_slice(), files, input, output),
        Command::Replay { plain, conf } => {
            replay(alloc, plain, conf.as_slice(), files, input, output)
        }
        Command::Generate { seed, count } => generate(alloc, seed, count, output),
        Command::Help => report(output, HELP, DONE),
        Command::Version => report(output, VERSION, DONE),
        Command::Serve(_) | Command::Other => report(output, USAGE, OTHER_WORDS),
    }
}
