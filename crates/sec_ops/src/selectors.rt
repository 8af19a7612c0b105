ghost use Rattle.std.specs.Prelude.{◌≡◌, IfErr, IfOk, OnOk, false, is_none, is_some, true};
ghost use Rattle.sec_ast.specs.declared.operator.OpKind.TheVariants.{Rx};
ghost use Rattle.sec_ops.specs.Hits.{groups_of, source_of, source_reading};
ghost use Rattle.sec_ops.specs.Selectors.{selector_source};

use crate::{BuildFault, Built, Hit, build, holds};
use sec_ast::{Op, OpKind, Part, Selector};
use std::alloc::Global;
use std::marker::Model;
use waf_plain::{Bytes, NoMemory, Seq};

/// The pattern of a target's selector, ready to test names without regard to case. Contracts see it
/// as the pattern's text.
#[derive(Drop)]
pub struct NamePattern {
    built: Built,
}

impl Model for NamePattern {
    ghost use Rattle.std.specs.Prelude.{List, ℕ};
    ghost use Rattle.sec_ops.specs.Selectors.{IsSelector, selector_pattern};

    ghost Value = { List ℕ };

    ghost view = { λ s. selector_pattern s.built };

    ghost invariant = { λ s. IsSelector s.built };
}

impl Selector for NamePattern {
    ghost use Rattle.sec_ops.specs.Selectors.{is_matched};

    ghost meaning = { is_matched };

    #[tactic(auto, using(crate::proofs::Selecting::selected))]
    fn selects(&self, name: &[u8]) -> Result<bool, NoMemory> {
        let found = holds(&self.built, &[], name)?;
        Ok(is_some(&found))
    }
}

impl NamePattern {
    /// Reads a pattern without regard to case.
    #[tactic(auto, using(crate::proofs::Meanings::unread_rx))]
    pub fn read(alloc: Global, pattern: &[u8]) -> Result<NamePattern, BuildFault>
        ensures ok { IfOk result (λ read. read ≡ pattern.now) }
        ensures read { OnOk result (is_none (source_reading (selector_source pattern.now)) ≡ false) }
        ensures bad { IfErr result (λ e. e ≡ BuildFault.BadPattern
            → is_none (source_reading (selector_source pattern.now)) ≡ true) }
    {
        let op = operator(alloc, pattern)?;
        let built = build(alloc, &op)?;
        Ok(NamePattern { built })
    }
}

fn is_some(found: &Hit) -> bool
    ensures { result ≡ is_some (groups_of found.now) }
{
    matches!(found, Hit::Yes { .. })
}

/// `@rx` of the pattern without regard to case.
fn operator(alloc: Global, pattern: &[u8]) -> Result<Op, NoMemory>
    ensures { IfOk result (λ op. (op.kind ≡ Rx) × (source_of op.text ≡ selector_source pattern.now)) }
{
    let mut source = Bytes::copy(alloc, b"(?i)")?;
    source.append(pattern)?;
    let mut text = Seq::new(alloc);
    text.push(Part::Text(source))?;
    Ok(Op {
        kind: OpKind::Rx,
        text,
        words: Seq::new(alloc),
    })
}
