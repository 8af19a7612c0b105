ghost use Rattle.std.specs.Prelude.{◌≡◌};

use std::alloc::AllocError;
use waf_plain::Bytes;

/// What is done with a transaction that a rule interrupted.
#[derive(Debug, PartialEq, Drop)]
pub enum VerdictAct {
    Deny,
    Drop,
    /// To this location, whose references are expanded.
    Redirect(Bytes),
}

impl Clone for VerdictAct {
    ghost is_clone = { λ a b. b ≡ a };

    fn clone(&self) -> Result<VerdictAct, AllocError> {
        match self {
            VerdictAct::Deny => Ok(VerdictAct::Deny),
            VerdictAct::Drop => Ok(VerdictAct::Drop),
            VerdictAct::Redirect(location) => Ok(VerdictAct::Redirect(location.clone()?)),
        }
    }
}

/// The end of a transaction: the rule that ended it by its identifier, or 0 where no rule did, what
/// is done with it, and the status of the answer.
#[derive(Debug, PartialEq, Drop)]
pub struct Verdict {
    pub rule: u32,
    pub act: VerdictAct,
    pub status: u32,
}

impl Clone for Verdict {
    ghost is_clone = { λ a b. b ≡ a };

    fn clone(&self) -> Result<Verdict, AllocError> {
        let act = self.act.clone()?;
        Ok(Verdict {
            rule: self.rule,
            act,
            status: self.status,
        })
    }
}

/// A line of the rule log: the identifier of the rule that matched, and its message and log data
/// with their references expanded.
#[derive(Debug, PartialEq, Drop)]
pub struct LogLine {
    pub rule: u32,
    pub msg: Bytes,
    pub detail: Bytes,
}

impl Clone for LogLine {
    ghost is_clone = { λ a b. b ≡ a };

    fn clone(&self) -> Result<LogLine, AllocError> {
        let msg = self.msg.clone()?;
        let detail = self.detail.clone()?;
        Ok(LogLine {
            rule: self.rule,
            msg,
            detail,
        })
    }
}
