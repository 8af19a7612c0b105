//! Judging, each half in a call. Its steps are counted for contracts alone.
ghost use Rattle.std.specs.Prelude.{◌≡◌, ◌<◌, IfOk, true};
ghost use Rattle.tx_core.specs.Halves.{BeginsAs, EndsAs, RetiresAs};
ghost use Rattle.conn_worker.specs.Serving.{IsRetired};

use crate::rules::SharedRules;
use sec_ast::LogLine;
use std::alloc::Global;
use std::marker::Brand;
use std::sync::ledger::{Blank, Ledger};
use tx_core::{Begun, Ended, Half, begin, finish, retire};
use waf_plain::{NoMemory, Seq, Steps};
use web_parts::{Request, Response};

// Judges a request.
pub fn begun(alloc: Global, rules: SharedRules, request: Request) -> Result<Begun, NoMemory>
    ensures { IfOk result (λ begun. BeginsAs rules.1 rules.0 request begun) }
{
    begun_in::<Brand>(alloc, rules, request, Blank::new(1))
}

fn begun_in<L: Ledger>(
    alloc: Global,
    rules: SharedRules,
    request: Request,
    blank: Blank,
) -> Result<Begun, NoMemory>
    requires name { blank.name ≡ L.name }
    requires parts { blank.parts ≡ L.parts }
    requires some { 0 < L.parts }
    ensures { IfOk result (λ begun. BeginsAs rules.1 rules.0 request begun) }
{
    let SharedRules { generation, handle } = rules;
    let mut steps = Steps::<L>::start(blank);
    begin(alloc, handle, generation, request, &mut steps)
}

// Judges a response, by the rules of the half itself.
pub fn finished(alloc: Global, half: Half, response: Response) -> Result<Ended, NoMemory>
    ensures { IfOk result (λ ended. EndsAs half response ended) }
{
    finished_in::<Brand>(alloc, half, response, Blank::new(1))
}

fn finished_in<L: Ledger>(
    alloc: Global,
    half: Half,
    response: Response,
    blank: Blank,
) -> Result<Ended, NoMemory>
    requires name { blank.name ≡ L.name }
    requires parts { blank.parts ≡ L.parts }
    requires some { 0 < L.parts }
    ensures { IfOk result (λ ended. EndsAs half response ended) }
{
    let mut steps = Steps::<L>::start(blank);
    finish(alloc, half, response, &mut steps)
}

// Ends a request for which no response comes, without its lines; whether there was memory.
pub fn ends(alloc: Global, half: Half) -> bool
    ensures { result ≡ true → IsRetired half }
{
    retired(alloc, half).is_ok()
}

fn retired(alloc: Global, half: Half) -> Result<Seq<LogLine>, NoMemory>
    ensures { IfOk result (λ lines. RetiresAs half lines) }
{
    retired_in::<Brand>(alloc, half, Blank::new(1))
}

fn retired_in<L: Ledger>(alloc: Global, half: Half, blank: Blank) -> Result<Seq<LogLine>, NoMemory>
    requires name { blank.name ≡ L.name }
    requires parts { blank.parts ≡ L.parts }
    requires some { 0 < L.parts }
    ensures { IfOk result (λ lines. RetiresAs half lines) }
{
    let mut steps = Steps::<L>::start(blank);
    retire(alloc, half, &mut steps)
}
