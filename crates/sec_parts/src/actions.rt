ghost use Rattle.std.specs.Prelude.{◌≡◌};
ghost use Rattle.sec_parts.specs.Numbers.{number_in};
ghost use Rattle.sec_parts.specs.Results.{Gives};
ghost use Rattle.sec_parts.specs.Actions.{action_of, allow_of, alone, id_of, is_defaults, is_word, label_of, logdata_of, msg_of, phase_in, phase_of, redirect_of, skip_of, status_of, transform_of, with_value};

use crate::changes::read_setvar;
use crate::controls::{read_ctl, read_identifier};
use crate::faults::{Refusal, bad_word, refused_name};
use crate::kinds::{Kind, Stand, is_refused_action, is_refused_transform};
use crate::limits::{
    LOGGING_PHASE, MAX_PHASE, MAX_SKIP, MAX_STATUS, MIN_STATUS, REQUEST_PHASE, RESPONSE_PHASE,
};
use crate::macros::read_macro;
use crate::numbers::read_number;
use crate::pieces::Piece;
use sec_ast::{Ctl, Disrupt, Macro, SetVar, Transform};
use std::alloc::Global;
use waf_plain::Bytes;

// What one piece of a list of actions says.
#[derive(Drop)]
pub enum Action {
    Id(u32),
    Phase(u8),
    Msg(Macro),
    Logdata(Macro),
    Tag(Bytes),
    Log(bool),
    Disrupt(Disrupt),
    // The disruptive action of the defaults.
    Block,
    Status(u32),
    Skip(u32),
    SkipAfter(Bytes),
    Chain,
    NoTransforms,
    Transform(Transform),
    Capture,
    MultiMatch,
    SetVar(SetVar),
    Ctl(Ctl),
    // Accepted, and without effect.
    Nothing,
}

#[tactic(auto, unfolding(crate::specs::Actions::is_word))]
fn says(text: &[u8], word: &[u8]) -> bool
    ensures { result ≡ is_word word.now text.now }
{
    text.eq_ignore_ascii_case(word)
}

fn read_phase_number(text: &[u8]) -> Option<u8>
    ensures { result ≡ number_in 1 MAX_PHASE text.now }
{
    match read_number(text, 1, MAX_PHASE) {
        Some(number) => Some(number as u8),
        None => None,
    }
}

#[tactic(auto, unfolding(crate::specs::Actions::phase_in))]
fn phase_named(text: &[u8]) -> Option<u8>
    ensures { result ≡ phase_in text.now }
{
    if says(text, b"request") {
        return Some(REQUEST_PHASE);
    }
    if says(text, b"response") {
        return Some(RESPONSE_PHASE);
    }
    if says(text, b"logging") {
        return Some(LOGGING_PHASE);
    }
    read_phase_number(text)
}

fn read_id(alloc: Global, piece: &[u8], text: &[u8]) -> Result<Action, Refusal>
    ensures { Gives (λ a. a) result (id_of piece.now text.now) }
{
    match read_identifier(text) {
        Some(id) => Ok(Action::Id(id)),
        None => Err(bad_word(alloc, piece)),
    }
}

fn read_phase(alloc: Global, piece: &[u8], text: &[u8]) -> Result<Action, Refusal>
    ensures { Gives (λ a. a) result (phase_of piece.now text.now) }
{
    match phase_named(text) {
        Some(phase) => Ok(Action::Phase(phase)),
        None => Err(bad_word(alloc, piece)),
    }
}

fn read_status(alloc: Global, piece: &[u8], text: &[u8]) -> Result<Action, Refusal>
    ensures { Gives (λ a. a) result (status_of piece.now text.now) }
{
    match read_number(text, MIN_STATUS, MAX_STATUS) {
        Some(status) => Ok(Action::Status(status)),
        None => Err(bad_word(alloc, piece)),
    }
}

fn read_skip(alloc: Global, piece: &[u8], text: &[u8]) -> Result<Action, Refusal>
    ensures { Gives (λ a. a) result (skip_of piece.now text.now) }
{
    match read_number(text, 1, MAX_SKIP) {
        Some(skip) => Ok(Action::Skip(skip)),
        None => Err(bad_word(alloc, piece)),
    }
}

fn read_msg(alloc: Global, text: &[u8]) -> Result<Action, Refusal>
    ensures { Gives (λ a. a) result (msg_of text.now) }
{
    let parts = read_macro(alloc, text)?;
    Ok(Action::Msg(parts))
}

fn read_logdata(alloc: Global, text: &[u8]) -> Result<Action, Refusal>
    ensures { Gives (λ a. a) result (logdata_of text.now) }
{
    let parts = read_macro(alloc, text)?;
    Ok(Action::Logdata(parts))
}

fn read_redirect(alloc: Global, piece: &[u8], text: &[u8]) -> Result<Action, Refusal>
    ensures { Gives (λ a. a) result (redirect_of piece.now text.now) }
{
    if text.is_empty() {
        return Err(bad_word(alloc, piece));
    }
    let location = read_macro(alloc, text)?;
    Ok(Action::Disrupt(Disrupt::Redirect(location)))
}

fn read_label(alloc: Global, piece: &[u8], text: &[u8]) -> Result<Action, Refusal>
    ensures { Gives (λ a. a) result (label_of piece.now text.now) }
{
    if text.is_empty() {
        return Err(bad_word(alloc, piece));
    }
    Ok(Action::SkipAfter(Bytes::copy(alloc, text)?))
}

fn read_allow(alloc: Global, piece: &[u8], text: &[u8]) -> Result<Action, Refusal>
    ensures { Gives (λ a. a) result (allow_of piece.now text.now) }
{
    if says(text, b"phase") {
        return Ok(Action::Disrupt(Disrupt::AllowPhase));
    }
    if says(text, b"request") {
        return Ok(Action::Disrupt(Disrupt::AllowRequest));
    }
    Err(bad_word(alloc, piece))
}

fn stands_in_defaults(stand: Stand) -> bool
    ensures { result ≡ is_defaults stand }
{
    match stand {
        Stand::Defaults => true,
        _ => false,
    }
}

fn read_transform(
    alloc: Global,
    in_defaults: bool,
    piece: &[u8],
    text: &[u8],
) -> Result<Action, Refusal>
    ensures { Gives (λ a. a) result (transform_of in_defaults piece.now text.now) }
{
    if says(text, b"none") {
        return Ok(Action::NoTransforms);
    }
    if in_defaults {
        return Err(bad_word(alloc, piece));
    }
    if is_refused_transform(text) {
        return Err(refused_name(alloc, text));
    }
    match Transform::named(text) {
        Some(transform) => Ok(Action::Transform(transform)),
        None => Err(bad_word(alloc, piece)),
    }
}

// An action without a value.
fn read_alone(alloc: Global, piece: &[u8], kind: Kind) -> Result<Action, Refusal>
    ensures { Gives (λ a. a) result (alone piece.now kind) }
{
    match kind {
        Kind::Log => Ok(Action::Log(true)),
        Kind::Nolog => Ok(Action::Log(false)),
        Kind::Pass => Ok(Action::Disrupt(Disrupt::Pass)),
        Kind::Deny => Ok(Action::Disrupt(Disrupt::Deny)),
        Kind::Drop => Ok(Action::Disrupt(Disrupt::Drop)),
        Kind::Allow => Ok(Action::Disrupt(Disrupt::Allow)),
        Kind::Block => Ok(Action::Block),
        Kind::Chain => Ok(Action::Chain),
        Kind::Capture => Ok(Action::Capture),
        Kind::MultiMatch => Ok(Action::MultiMatch),
        Kind::Auditlog
        | Kind::Noauditlog
        | Kind::Severity
        | Kind::Ver
        | Kind::Rev
        | Kind::Maturity
        | Kind::Accuracy => Ok(Action::Nothing),
        _ => Err(bad_word(alloc, piece)),
    }
}

// An action with a value; `piece` is all of it.
fn read_with_value(
    alloc: Global,
    stand: Stand,
    piece: &[u8],
    text: &[u8],
    kind: Kind,
) -> Result<Action, Refusal>
    ensures { Gives (λ a. a) result (with_value stand piece.now text.now kind) }
{
    match kind {
        Kind::Id => read_id(alloc, piece, text),
        Kind::Phase => read_phase(alloc, piece, text),
        Kind::Msg => read_msg(alloc, text),
        Kind::Logdata => read_logdata(alloc, text),
        Kind::Tag => Ok(Action::Tag(Bytes::copy(alloc, text)?)),
        Kind::Redirect => read_redirect(alloc, piece, text),
        Kind::Allow => read_allow(alloc, piece, text),
        Kind::Status => read_status(alloc, piece, text),
        Kind::Skip => read_skip(alloc, piece, text),
        Kind::SkipAfter => read_label(alloc, piece, text),
        Kind::T => read_transform(alloc, stands_in_defaults(stand), piece, text),
        Kind::Setvar => read_setvar(alloc, piece, text),
        Kind::Ctl => read_ctl(alloc, piece, text),
        Kind::Severity | Kind::Ver | Kind::Rev | Kind::Maturity | Kind::Accuracy => {
            Ok(Action::Nothing)
        }
        _ => Err(bad_word(alloc, piece)),
    }
}

// What a piece says: first its name counts, then whether it may stand here, then its value.
#[tactic(auto, unfolding(crate::specs::Actions::action_of))]
pub fn read_action(alloc: Global, stand: Stand, piece: &Piece) -> Result<Action, Refusal>
    ensures { Gives (λ a. a) result (action_of stand piece.now) }
{
    if is_refused_action(piece.name.as_slice()) {
        return Err(refused_name(alloc, piece.name.as_slice()));
    }
    let Some(kind) = Kind::named(piece.name.as_slice()) else {
        return Err(bad_word(alloc, piece.text.as_slice()));
    };
    if !kind.may_stand(stand) {
        return Err(bad_word(alloc, piece.text.as_slice()));
    }
    match &piece.value {
        Some(text) => read_with_value(alloc, stand, piece.text.as_slice(), text.as_slice(), kind),
        None => read_alone(alloc, piece.text.as_slice(), kind),
    }
}
