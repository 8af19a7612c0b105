use sec_ast::{LogLine, Verdict};
use waf_plain::Seq;

/// What judging a request comes to, with the lines that it logged. `H` is the request's half of a judgement.
#[derive(Drop)]
pub enum JudgeBegun<H> {
    /// A rule interrupted, or the request's body is too long. The transaction is over, and its logging
    /// phase is among the lines.
    Interrupted {
        verdict: Verdict,
        lines: Seq<LogLine>,
    },
    Goes {
        half: H,
        lines: Seq<LogLine>,
    },
}
