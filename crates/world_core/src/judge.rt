//! What judges requests and responses.
ghost use Rattle.std.specs.Prelude.{IfOk};
ghost use Rattle.std.specs.Arc.{arc_value};
ghost use Rattle.tx_core.specs.HalfView.{HalfView};
ghost use Rattle.tx_core.specs.Halves.{BeginsAs, EndsAs, RetiresAs};
ghost use Rattle.world_core.specs.Begun.{begun_by};

use crate::begun::JudgeBegun;
use crate::rules::Handle;
use sec_ast::LogLine;
use std::alloc::Global;
use tx_core::Ended;
use waf_plain::{NoMemory, Seq};
use web_parts::{Request, Response};

/// What judges a transaction in two halves: that of the request, and that of its response or of none.
pub trait Judge: Drop {
    /// A transaction whose request was judged and not interrupted.
    type Half: Drop;

    /// Its generation, its rules and its request.
    ghost half: { Self.Half → HalfView };

    /// Judges a request by the rules of a generation.
    fn begin(
        &self,
        alloc: Global,
        rules: Handle,
        generation: u64,
        request: Request,
    ) -> Result<JudgeBegun<Self::Half>, NoMemory>
        ensures { IfOk result (λ begun. BeginsAs (arc_value rules) generation request (begun_by half begun)) };

    /// Judges the response of a half.
    fn finish(
        &self,
        alloc: Global,
        judged: Self::Half,
        response: Response,
    ) -> Result<Ended, NoMemory>
        ensures { IfOk result (λ ended. EndsAs (half judged) response ended) };

    /// Ends a half for which no response comes.
    fn retire(&self, alloc: Global, judged: Self::Half) -> Result<Seq<LogLine>, NoMemory>
        ensures { IfOk result (λ lines. RetiresAs (half judged) lines) };
}
