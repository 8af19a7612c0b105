//! The half of a judge, as the table and the connections hold it: it is seen in the same way for every judge.
ghost use Rattle.std.specs.Prelude.{IfOk};
ghost use Rattle.tx_core.specs.Halves.{BeginsAs, EndsAs, RetiresAs};
ghost use Rattle.world_core.specs.Begun.{begun_of};

use crate::begun::JudgeBegun;
use crate::judge::Judge;
use crate::rules::SharedRules;
use sec_ast::LogLine;
use std::alloc::Global;
use std::marker::Model;
use tx_core::Ended;
use waf_plain::{NoMemory, Seq};
use web_parts::{Request, Response};

/// A transaction whose request was judged and not interrupted.
#[derive(Drop)]
pub struct Judged<J: Judge> {
    half: J::Half,
}

impl<J: Judge> Model for Judged<J> {
    ghost use Rattle.tx_core.specs.HalfView.{HalfView};

    ghost Value = { HalfView };

    ghost view = { λ judged. J.half judged.half };
}

/// Judges a request.
pub fn begin<J: Judge>(
    judge: &J,
    alloc: Global,
    rules: SharedRules,
    request: Request,
) -> Result<JudgeBegun<Judged<J>>, NoMemory>
    ensures { IfOk result (λ begun. BeginsAs rules.1 rules.0 request (begun_of begun)) }
{
    let SharedRules { generation, handle } = rules;
    match judge.begin(alloc, handle, generation, request)? {
        JudgeBegun::Interrupted { verdict, lines } => {
            Ok(JudgeBegun::Interrupted { verdict, lines })
        }
        JudgeBegun::Goes { half, lines } => Ok(JudgeBegun::Goes {
            half: Judged { half },
            lines,
        }),
    }
}

/// Judges a response.
pub fn finish<J: Judge>(
    judge: &J,
    alloc: Global,
    judged: Judged<J>,
    response: Response,
) -> Result<Ended, NoMemory>
    ensures { IfOk result (λ ended. EndsAs judged response ended) }
{
    judge.finish(alloc, judged.half, response)
}

/// Ends a request for which no response comes.
pub fn retire<J: Judge>(
    judge: &J,
    alloc: Global,
    judged: Judged<J>,
) -> Result<Seq<LogLine>, NoMemory>
    ensures { IfOk result (λ lines. RetiresAs judged lines) }
{
    judge.retire(alloc, judged.half)
}
