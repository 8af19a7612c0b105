ghost use Rattle.std.specs.Prelude.{◌≡◌, Some};
ghost use Rattle.sec_ast.specs.Operator.{operator_name, operator_named};

use crate::macros::Macro;
use std::alloc::AllocError;
use waf_plain::{Bytes, Seq};

/// What an operator tests, by its canonical name: the names of the reference manual's chapter
/// "Operators" in Rust's case. One that reads its words from a file is of the kind of the one that
/// has them in its argument.
#[derive(Clone, Copy, Debug, PartialEq, Eq)]
pub enum OpKind {
    /// A pattern, read under Unicode rules.
    Rx,
    /// A pattern as PCRE reads it, on bytes.
    RxBytes,
    Pm,
    Streq,
    Contains,
    BeginsWith,
    EndsWith,
    Within,
    Eq,
    Ge,
    Gt,
    Le,
    Lt,
    IpMatch,
    ValidateByteRange,
    ValidateUrlEncoding,
    ValidateUtf8Encoding,
    UnconditionalMatch,
    NoMatch,
}

const OP_KINDS: [OpKind; 19] = [
    OpKind::Rx,
    OpKind::RxBytes,
    OpKind::Pm,
    OpKind::Streq,
    OpKind::Contains,
    OpKind::BeginsWith,
    OpKind::EndsWith,
    OpKind::Within,
    OpKind::Eq,
    OpKind::Ge,
    OpKind::Gt,
    OpKind::Le,
    OpKind::Lt,
    OpKind::IpMatch,
    OpKind::ValidateByteRange,
    OpKind::ValidateUrlEncoding,
    OpKind::ValidateUtf8Encoding,
    OpKind::UnconditionalMatch,
    OpKind::NoMatch,
];

impl OpKind {
    /// The canonical name, as it is printed behind `@`.
    pub fn name(self) -> &'static [u8]
        ensures { result.now ≡ operator_name self }
    {
        match self {
            OpKind::Rx => b"rx",
            OpKind::RxBytes => b"rxBytes",
            OpKind::Pm => b"pm",
            OpKind::Streq => b"streq",
            OpKind::Contains => b"contains",
            OpKind::BeginsWith => b"beginsWith",
            OpKind::EndsWith => b"endsWith",
            OpKind::Within => b"within",
            OpKind::Eq => b"eq",
            OpKind::Ge => b"ge",
            OpKind::Gt => b"gt",
            OpKind::Le => b"le",
            OpKind::Lt => b"lt",
            OpKind::IpMatch => b"ipMatch",
            OpKind::ValidateByteRange => b"validateByteRange",
            OpKind::ValidateUrlEncoding => b"validateUrlEncoding",
            OpKind::ValidateUtf8Encoding => b"validateUtf8Encoding",
            OpKind::UnconditionalMatch => b"unconditionalMatch",
            OpKind::NoMatch => b"noMatch",
        }
    }

    /// The kind of this canonical name, without regard to case.
    #[tactic(auto, unfolding(crate::specs::Operator::operator_named))]
    pub fn named(word: &[u8]) -> Option<OpKind>
        ensures { result ≡ operator_named word.now }
    {
        OP_KINDS
            .iter()
            .copied()
            .find(|one| one.name().eq_ignore_ascii_case(word))
    }
}

/// The kind of a canonical name is the one that has it.
#[tactic(auto, unfolding(crate::specs::Operator::operator_named))]
pub fn operator_of_its_name()
    ensures { (operator : OpKind) → operator_named (operator_name operator) ≡ Some operator }
{}

/// An operator with its argument. `text` has the pattern of `Rx` and `RxBytes`, as one part of text or
/// none, and the argument of a kind that takes a macro; `words` has the phrases, the addresses or the ranges.
/// The other field is empty.
#[derive(Debug, PartialEq, Drop)]
pub struct Op {
    pub kind: OpKind,
    pub text: Macro,
    pub words: Seq<Bytes>,
}

impl Clone for Op {
    ghost is_clone = { λ a b. b ≡ a };

    fn clone(&self) -> Result<Op, AllocError> {
        let text = self.text.clone()?;
        let words = self.words.clone()?;
        Ok(Op {
            kind: self.kind,
            text,
            words,
        })
    }
}
