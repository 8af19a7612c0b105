//! The judge of `tx_core`; its steps are counted for contracts alone.
ghost use Rattle.std.specs.Prelude.{◌≡◌, ◌<◌, IfOk};
ghost use Rattle.std.specs.Arc.{arc_value};
ghost use Rattle.tx_core.specs.Halves.{BeginsAs, EndsAs, RetiresAs};

use crate::begun::JudgeBegun;
use crate::judge::Judge;
use crate::rules::Handle;
use sec_ast::LogLine;
use std::alloc::Global;
use std::marker::Brand;
use std::sync::ledger::{Blank, Ledger};
use tx_core::{Begun, Ended, Half};
use waf_plain::{NoMemory, Seq, Steps};
use web_parts::{Request, Response};

/// Judges by the halves of `tx_core`.
#[derive(Drop)]
pub struct Halves {}

impl Judge for Halves {
    type Half = Half;

    ghost half = { λ half. half };

    fn begin(
        &self,
        alloc: Global,
        rules: Handle,
        generation: u64,
        request: Request,
    ) -> Result<JudgeBegun<Half>, NoMemory> {
        match begin(alloc, rules, generation, request)? {
            Begun::Interrupted { verdict, lines } => Ok(JudgeBegun::Interrupted { verdict, lines }),
            Begun::Goes { half, lines } => Ok(JudgeBegun::Goes { half, lines }),
        }
    }

    fn finish(&self, alloc: Global, half: Half, response: Response) -> Result<Ended, NoMemory> {
        finish(alloc, half, response)
    }

    fn retire(&self, alloc: Global, half: Half) -> Result<Seq<LogLine>, NoMemory> {
        retire(alloc, half)
    }
}

fn begin(alloc: Global, rules: Handle, generation: u64, request: Request) -> Result<Begun, NoMemory>
    ensures { IfOk result (λ begun. BeginsAs (arc_value rules) generation request begun) }
{
    begin_in::<Brand>(alloc, rules, generation, request, Blank::new(1))
}

fn begin_in<L: Ledger>(
    alloc: Global,
    rules: Handle,
    generation: u64,
    request: Request,
    blank: Blank,
) -> Result<Begun, NoMemory>
    requires name { blank.name ≡ L.name }
    requires parts { blank.parts ≡ L.parts }
    requires some { 0 < L.parts }
    ensures { IfOk result (λ begun. BeginsAs (arc_value rules) generation request begun) }
{
    let mut steps = Steps::<L>::start(blank);
    tx_core::begin(alloc, rules, generation, request, &mut steps)
}

fn finish(alloc: Global, half: Half, response: Response) -> Result<Ended, NoMemory>
    ensures { IfOk result (λ ended. EndsAs half response ended) }
{
    finish_in::<Brand>(alloc, half, response, Blank::new(1))
}

fn finish_in<L: Ledger>(
    alloc: Global,
    half: Half,
    response: Response,
    blank: Blank,
) -> Result<Ended, NoMemory>
    requires name { blank.name ≡ L.name }
    requires parts { blank.parts ≡ L.parts }
    requires some { 0 < L.parts }
    ensures { IfOk result (λ ended. EndsAs half response ended) }
{
    let mut steps = Steps::<L>::start(blank);
    tx_core::finish(alloc, half, response, &mut steps)
}

fn retire(alloc: Global, half: Half) -> Result<Seq<LogLine>, NoMemory>
    ensures { IfOk result (λ lines. RetiresAs half lines) }
{
    retire_in::<Brand>(alloc, half, Blank::new(1))
}

fn retire_in<L: Ledger>(alloc: Global, half: Half, blank: Blank) -> Result<Seq<LogLine>, NoMemory>
    requires name { blank.name ≡ L.name }
    requires parts { blank.parts ≡ L.parts }
    requires some { 0 < L.parts }
    ensures { IfOk result (λ lines. RetiresAs half lines) }
{
    let mut steps = Steps::<L>::start(blank);
    tx_core::retire(alloc, half, &mut steps)
}
