ghost use Rattle.std.specs.Prelude.{◌≡◌, ◌≢◌, ◌++◌, Err, IfOk, IfSome, OnOk, map};
ghost use Rattle.std.specs.Arc.{arc_value};
ghost use Rattle.waf_io.specs.Counts.{Rose};
ghost use Rattle.agent_conf.specs.Seen.{app_seen};
ghost use Rattle.reports.specs.declared.exit_status.TheConstants.{DOOR_FAULT, OTHER_WORDS, READ_FAULT, UNFINISHED, WRITE_FAULT};
ghost use Rattle.reports.specs.declared.faults.CommandFault.TheVariants as faults;
ghost use Rattle.agent_main.specs.Check.{app_text, apps_text, checked};
ghost use Rattle.reports.specs.CommandFaults.{Tells};
ghost use Rattle.reports.specs.Report.{Answers};

use agent_conf::load;
use reports::exit_status::{DONE, OUT_OF_MEMORY, READ_FAULT, REFUSED};
use reports::{CommandFault, command_fault, report};
use sec_ast::print_listing;
use sec_compile::Ruleset;
use shelf::App;
use std::alloc::Global;
use std::sync::Arc;
use waf_io::{Files, Sink};
use waf_plain::{Bytes, NoMemory};

// Prints the listing of each application of the configuration under that name.
pub fn check<F: Files, K: Sink>(alloc: Global, name: &[u8], files: &mut F, output: &mut K) -> u8
    ensures other { (result ≢ UNFINISHED) × (result ≢ OTHER_WORDS) × (result ≢ DOOR_FAULT) }
    ensures checked { IfSome (F.content files.old) (λ told. Answers result (checked told name.now)
        (F.faults files.old) (F.faults files.new) (K.held output.old) (K.held output.new)) }
    ensures read_fault { result ≡ READ_FAULT → Rose (F.faults files.old) (F.faults files.new) }
    ensures write_fault { result ≡ WRITE_FAULT → Rose (K.faults output.old) (K.faults output.new) }
{
    match checked(alloc, name, files) {
        Ok(text) => report(output, text.as_slice(), DONE),
        Err(CommandFault::Line(line)) => report(output, line.as_slice(), REFUSED),
        Err(CommandFault::ReadFault) => READ_FAULT,
        Err(CommandFault::NoMemory) => OUT_OF_MEMORY,
    }
}

// The text of all applications.
#[tactic(auto, unfolding(crate::specs::Check::checked))]
fn checked<F: Files>(alloc: Global, name: &[u8], files: &mut F) -> Result<Bytes, CommandFault>
    ensures told { IfSome (F.content files.old) (λ told. Tells result (checked told name.now)) }
    ensures cause { result ≡ Err faults.ReadFault → Rose (F.faults files.old) (F.faults files.new) }
{
    match load(alloc, name, files) {
        Ok((_, apps)) => Ok(apps_text(alloc, apps.list.as_slice())?),
        Err(fault) => Err(command_fault(alloc, name, fault)),
    }
}

// The texts of these applications, one after the other.
fn apps_text(alloc: Global, apps: &[App<Arc<Ruleset, Global>>]) -> Result<Bytes, NoMemory>
    ensures { IfOk result (λ text. text ≡ apps_text (map (app_seen arc_value) apps.now)) }
{
    let mut text = Bytes::new(alloc);
    for app in apps {
        push_app(alloc, app, &mut text)?;
    }
    Ok(text)
}

// Appends the name of an application and its listing.
fn push_app(
    alloc: Global,
    app: &App<Arc<Ruleset, Global>>,
    text: &mut Bytes,
) -> Result<(), NoMemory>
    ensures { OnOk result (text.new ≡ text.old ++ app_text (app_seen arc_value app.now)) }
{
    text.append(b"app ")?;
    text.append(app.name.as_slice())?;
    text.append(b"\n")?;
    print_listing(alloc, app.rules.listing(), text)
}
