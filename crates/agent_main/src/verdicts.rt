ghost use Rattle.std.specs.Prelude.{◌≡◌, ◌<◌, IfOk};
ghost use Rattle.std.specs.Arc.{arc_value};
ghost use Rattle.tx_core.specs.Halves.{BeginsAs, EndsAs, RetiresAs};
ghost use Rattle.agent_main.specs.declared.verdicts.TheConstants.{GENERATION};

use sec_ast::LogLine;
use sec_compile::Ruleset;
use std::alloc::Global;
use std::marker::Brand;
use std::sync::Arc;
use std::sync::ledger::{Blank, Ledger};
use tx_core::{Begun, Ended, Half, begin, finish, retire};
use waf_plain::{NoMemory, Seq, Steps};
use web_parts::{Request, Response};

// The generation of the rules, which are read once.
pub const GENERATION: u64 = 1;

// Judges a request by these rules. Its steps are counted for contracts alone.
pub fn begun(
    alloc: Global,
    rules: &Arc<Ruleset, Global>,
    request: Request,
) -> Result<Begun, NoMemory>
    ensures { IfOk result (λ begun. BeginsAs (arc_value rules.now) GENERATION request begun) }
{
    begun_in::<Brand>(alloc, rules, request, Blank::new(1))
}

fn begun_in<L: Ledger>(
    alloc: Global,
    rules: &Arc<Ruleset, Global>,
    request: Request,
    blank: Blank,
) -> Result<Begun, NoMemory>
    requires name { blank.name ≡ L.name }
    requires parts { blank.parts ≡ L.parts }
    requires some { 0 < L.parts }
    ensures { IfOk result (λ begun. BeginsAs (arc_value rules.now) GENERATION request begun) }
{
    let mut steps = Steps::<L>::start(blank);
    begin(alloc, rules.clone()?, GENERATION, request, &mut steps)
}

// Judges the response of a request by the rules of that request.
pub fn finished(alloc: Global, half: Half, response: Response) -> Result<Ended, NoMemory>
    ensures { IfOk result (λ ended. EndsAs half response ended) }
{
    finished_in::<Brand>(alloc, half, response, Blank::new(1))
}

fn finished_in<L: Ledger>(
    alloc: Global,
    half: Half,
    response: Response,
    blank: Blank,
) -> Result<Ended, NoMemory>
    requires name { blank.name ≡ L.name }
    requires parts { blank.parts ≡ L.parts }
    requires some { 0 < L.parts }
    ensures { IfOk result (λ ended. EndsAs half response ended) }
{
    let mut steps = Steps::<L>::start(blank);
    finish(alloc, half, response, &mut steps)
}

// Ends a request that goes on to no response, with the lines of its last phase.
pub fn retired(alloc: Global, half: Half) -> Result<Seq<LogLine>, NoMemory>
    ensures { IfOk result (λ lines. RetiresAs half lines) }
{
    retired_in::<Brand>(alloc, half, Blank::new(1))
}

fn retired_in<L: Ledger>(alloc: Global, half: Half, blank: Blank) -> Result<Seq<LogLine>, NoMemory>
    requires name { blank.name ≡ L.name }
    requires parts { blank.parts ≡ L.parts }
    requires some { 0 < L.parts }
    ensures { IfOk result (λ lines. RetiresAs half lines) }
{
    let mut steps = Steps::<L>::start(blank);
    retire(alloc, half, &mut steps)
}
