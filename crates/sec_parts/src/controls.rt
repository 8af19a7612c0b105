ghost use Rattle.std.specs.Prelude.{◌≡◌};
ghost use Rattle.sec_parts.specs.Results.{Gives};
ghost use Rattle.sec_parts.specs.Changes.{ctl_name, ctl_named, ctl_of, id_range, identifier, is_refused_ctl, of_ctl, range_of, remove_by_id_ctl, remove_by_tag_ctl, switch_named};

use crate::actions::Action;
use crate::faults::{Refusal, bad_word, refused_name};
use crate::limits::MAX_ID;
use crate::numbers::read_number;
use crate::texts::count_to;
use sec_ast::{Ctl, Engine, Processor, is_among};
use sec_text::characters::{EQUALS, MINUS};
use std::alloc::Global;
use waf_plain::Bytes;

// What `ctl` sets, by its name.
#[derive(Clone, Copy)]
pub enum CtlKind {
    RuleEngine,
    RequestBodyAccess,
    ResponseBodyAccess,
    RequestBodyProcessor,
    RuleRemoveById,
    RuleRemoveByTag,
    AuditEngine,
    AuditLogParts,
    DebugLogLevel,
    ForceRequestBodyVariable,
}

const CTL_KINDS: [CtlKind; 10] = [
    CtlKind::RuleEngine,
    CtlKind::RequestBodyAccess,
    CtlKind::ResponseBodyAccess,
    CtlKind::RequestBodyProcessor,
    CtlKind::RuleRemoveById,
    CtlKind::RuleRemoveByTag,
    CtlKind::AuditEngine,
    CtlKind::AuditLogParts,
    CtlKind::DebugLogLevel,
    CtlKind::ForceRequestBodyVariable,
];

const REFUSED: [&[u8]; 2] = [b"ruleRemoveByMsg", b"ruleRemoveTargetByMsg"];

impl CtlKind {
    fn name(self) -> &'static [u8]
        ensures { result.now ≡ ctl_name self }
    {
        match self {
            CtlKind::RuleEngine => b"ruleEngine",
            CtlKind::RequestBodyAccess => b"requestBodyAccess",
            CtlKind::ResponseBodyAccess => b"responseBodyAccess",
            CtlKind::RequestBodyProcessor => b"requestBodyProcessor",
            CtlKind::RuleRemoveById => b"ruleRemoveById",
            CtlKind::RuleRemoveByTag => b"ruleRemoveByTag",
            CtlKind::AuditEngine => b"auditEngine",
            CtlKind::AuditLogParts => b"auditLogParts",
            CtlKind::DebugLogLevel => b"debugLogLevel",
            CtlKind::ForceRequestBodyVariable => b"forceRequestBodyVariable",
        }
    }

    #[tactic(auto, unfolding(crate::specs::Changes::ctl_named))]
    fn named(word: &[u8]) -> Option<CtlKind>
        ensures { result ≡ ctl_named word.now }
    {
        CTL_KINDS
            .iter()
            .copied()
            .find(|kind| kind.name().eq_ignore_ascii_case(word))
    }
}

#[tactic(auto, unfolding(crate::specs::Changes::is_refused_ctl))]
fn is_refused(name: &[u8]) -> bool
    ensures { result ≡ is_refused_ctl name.now }
{
    is_among(name, &REFUSED)
}

/// `On` or `Off`, without regard to case.
#[tactic(auto, unfolding(crate::specs::Changes::switch_named))]
pub fn read_switch(text: &[u8]) -> Option<bool>
    ensures { result ≡ switch_named text.now }
{
    if text.eq_ignore_ascii_case(b"On") {
        return Some(true);
    }
    if text.eq_ignore_ascii_case(b"Off") {
        return Some(false);
    }
    None
}

/// An identifier of a rule: a number from 1 to 999999999.
pub fn read_identifier(text: &[u8]) -> Option<u32>
    ensures { result ≡ identifier text.now }
{
    read_number(text, 1, MAX_ID)
}

fn range_between(first: Option<u32>, last: Option<u32>) -> Option<(u32, u32)>
    ensures { result ≡ range_of first last }
{
    match (first, last) {
        (Some(first), Some(last)) => {
            if first <= last {
                return Some((first, last));
            }
            None
        }
        (Some(_), None) => None,
        (None, _) => None,
    }
}

/// One identifier, as both ends of a range, or two joined by `-` of which the first is not greater.
#[tactic(auto, unfolding(crate::specs::Changes::id_range))]
pub fn read_id_range(text: &[u8]) -> Option<(u32, u32)>
    ensures { result ≡ id_range text.now }
{
    let (first, rest) = text.split_at(count_to(text, MINUS));
    match rest {
        [] => range_between(read_identifier(first), read_identifier(first)),
        [_, last @ ..] => range_between(read_identifier(first), read_identifier(last)),
    }
}

fn remove_by_id(alloc: Global, piece: &[u8], ids: Option<(u32, u32)>) -> Result<Action, Refusal>
    ensures { Gives (λ a. a) result (remove_by_id_ctl piece.now ids) }
{
    match ids {
        Some((first, last)) => Ok(Action::Ctl(Ctl::RemoveById(first, last))),
        None => Err(bad_word(alloc, piece)),
    }
}

fn remove_by_tag(alloc: Global, piece: &[u8], tag: &[u8]) -> Result<Action, Refusal>
    ensures { Gives (λ a. a) result (remove_by_tag_ctl piece.now tag.now) }
{
    match tag {
        [] => Err(bad_word(alloc, piece)),
        _ => Ok(Action::Ctl(Ctl::RemoveByTag(Bytes::copy(alloc, tag)?))),
    }
}

fn read_of_kind(alloc: Global, piece: &[u8], value: &[u8], kind: CtlKind) -> Result<Action, Refusal>
    ensures { Gives (λ a. a) result (of_ctl piece.now value.now kind) }
{
    match kind {
        CtlKind::RuleEngine => match Engine::named(value) {
            Some(engine) => Ok(Action::Ctl(Ctl::Engine(engine))),
            None => Err(bad_word(alloc, piece)),
        },
        CtlKind::RequestBodyAccess => match read_switch(value) {
            Some(is_on) => Ok(Action::Ctl(Ctl::RequestBody(is_on))),
            None => Err(bad_word(alloc, piece)),
        },
        CtlKind::ResponseBodyAccess => match read_switch(value) {
            Some(is_on) => Ok(Action::Ctl(Ctl::ResponseBody(is_on))),
            None => Err(bad_word(alloc, piece)),
        },
        CtlKind::RequestBodyProcessor => match Processor::named(value) {
            Some(processor) => Ok(Action::Ctl(Ctl::Body(processor))),
            None => Err(bad_word(alloc, piece)),
        },
        CtlKind::RuleRemoveById => remove_by_id(alloc, piece, read_id_range(value)),
        CtlKind::RuleRemoveByTag => remove_by_tag(alloc, piece, value),
        CtlKind::AuditEngine => Ok(Action::Nothing),
        CtlKind::AuditLogParts => Ok(Action::Nothing),
        CtlKind::DebugLogLevel => Ok(Action::Nothing),
        CtlKind::ForceRequestBodyVariable => Ok(Action::Nothing),
    }
}

// What `ctl` says; `piece` is the whole piece, and `text` the value.
#[tactic(auto, unfolding(crate::specs::Changes::ctl_of))]
pub fn read_ctl(alloc: Global, piece: &[u8], text: &[u8]) -> Result<Action, Refusal>
    ensures { Gives (λ a. a) result (ctl_of piece.now text.now) }
{
    let (name, rest) = text.split_at(count_to(text, EQUALS));
    if is_refused(name) {
        return Err(refused_name(alloc, text));
    }
    match rest {
        [] => Err(bad_word(alloc, piece)),
        [_, value @ ..] => match CtlKind::named(name) {
            Some(kind) => read_of_kind(alloc, piece, value, kind),
            None => Err(bad_word(alloc, piece)),
        },
    }
}
