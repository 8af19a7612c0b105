ghost use Rattle.std.specs.Prelude.{◌≡◌, length, OnOk, List, Result, Some, suc, ℕ};
ghost use Rattle.sec_parts.specs.declared.faults.Bad.{Bad};
ghost use Rattle.sec_parts.specs.Results.{Gives};
ghost use Rattle.sec_parts.specs.Acts.{AreActs, actions_in, added, no_acts, pieces_in, repeats, with_action, with_piece};

use crate::actions::{Action, read_action};
use crate::faults::{Refusal, bad_word};
use crate::kinds::Stand;
use crate::pieces::{Piece, read_piece};
use sec_ast::{Ctl, Disrupt, Macro, SetVar, Transform};
use std::alloc::Global;
use waf_plain::{Bytes, NoMemory, Seq};

/// What a list of actions says. What it does not name is `None`, empty, 0 or `false`; so is the
/// disruptive action where the last that it names is `block`.
#[derive(Debug, PartialEq, Drop)]
pub struct Acts {
    pub id: Option<u32>,
    pub phase: Option<u8>,
    pub msg: Macro,
    pub logdata: Macro,
    pub tags: Seq<Bytes>,
    pub log: Option<bool>,
    pub disrupt: Option<Disrupt>,
    pub status: Option<u32>,
    pub skip: u32,
    pub skip_after: Option<Bytes>,
    pub chain: bool,
    pub transforms: Seq<Transform>,
    pub capture: bool,
    pub multi: bool,
    pub setvars: Seq<SetVar>,
    pub ctls: Seq<Ctl>,
}

impl Acts {
    /// What an action list says that is not there.
    pub fn none(alloc: Global) -> Acts
        ensures { result ≡ no_acts }
    {
        Acts {
            id: None,
            phase: None,
            msg: Seq::new(alloc),
            logdata: Seq::new(alloc),
            tags: Seq::new(alloc),
            log: None,
            disrupt: None,
            status: None,
            skip: 0,
            skip_after: None,
            chain: false,
            transforms: Seq::new(alloc),
            capture: false,
            multi: false,
            setvars: Seq::new(alloc),
            ctls: Seq::new(alloc),
        }
    }
}

// One more action, whatever stood before it.
fn add_action(alloc: Global, action: Action, acts: &mut Acts) -> Result<(), NoMemory>
    ensures { OnOk result (acts.new ≡ with_action action acts.old) }
{
    match action {
        Action::Id(id) => acts.id = Some(id),
        Action::Phase(phase) => acts.phase = Some(phase),
        Action::Msg(text) => acts.msg = text,
        Action::Logdata(text) => acts.logdata = text,
        Action::Tag(tag) => return acts.tags.push(tag),
        Action::Log(is_logged) => acts.log = Some(is_logged),
        Action::Disrupt(disrupt) => acts.disrupt = Some(disrupt),
        Action::Block => acts.disrupt = None,
        Action::Status(status) => acts.status = Some(status),
        Action::Skip(skip) => acts.skip = skip,
        Action::SkipAfter(label) => acts.skip_after = Some(label),
        Action::Chain => acts.chain = true,
        Action::NoTransforms => acts.transforms = Seq::new(alloc),
        Action::Transform(transform) => return acts.transforms.push(transform),
        Action::Capture => acts.capture = true,
        Action::MultiMatch => acts.multi = true,
        Action::SetVar(setvar) => return acts.setvars.push(setvar),
        Action::Ctl(ctl) => return acts.ctls.push(ctl),
        Action::Nothing => {}
    }
    Ok(())
}

fn stands_again(action: &Action, acts: &Acts) -> bool
    ensures { result ≡ repeats action.now acts.now }
{
    match action {
        Action::Id(_) => acts.id.is_some(),
        _ => false,
    }
}

fn add_checked(alloc: Global, piece: &[u8], action: Action, acts: &mut Acts) -> Result<(), Refusal>
    ensures { Gives (λ _. acts.new) result (added piece.now action acts.old) }
{
    if stands_again(&action, acts) {
        return Err(bad_word(alloc, piece));
    }
    add_action(alloc, action, acts)?;
    Ok(())
}

#[tactic(auto, unfolding(crate::specs::Acts::with_piece))]
fn add_piece(alloc: Global, stand: Stand, piece: &Piece, acts: &mut Acts) -> Result<(), Refusal>
    ensures { Gives (λ _. acts.new) result (with_piece stand piece.now acts.old) }
{
    let action = read_action(alloc, stand, piece)?;
    add_checked(alloc, piece.text.as_slice(), action, acts)
}

// The pieces of a list, each added to what was said.
fn add_pieces(alloc: Global, stand: Stand, text: &[u8], acts: &mut Acts) -> Result<(), Refusal>
    ensures { Gives (λ _. acts.new) result (pieces_in stand (suc (length text.now)) (Some text.now) acts.old) }
{
    let mut rest = Some(text);
    while let Some(here) = rest {
        let (piece, after) = read_piece(alloc, here)?;
        let added = add_piece(alloc, stand, &piece, acts);
        drop(piece);
        added?;
        rest = after;
    }
    Ok(())
}

/// What a list of actions says, its pieces parted by commas. A single quote that does not close is
/// `OpenQuote` with the piece up to the end; the name of an action or transformation that is left
/// out is `RefusedByName` with that name, and so is a lasting collection in `setvar` and a removal
/// by message in `ctl`, with the value; all else outside its form is `BadWord` with the piece. A
/// macro has its own faults.
#[tactic(auto, unfolding(crate::specs::Acts::actions_in))]
pub fn read_actions(alloc: Global, stand: Stand, text: &[u8]) -> Result<Acts, Refusal>
    ensures { Gives (λ a. a) result (actions_in stand text.now) }
{
    let mut acts = Acts::none(alloc);
    match add_pieces(alloc, stand, text, &mut acts) {
        Ok(()) => Ok(acts),
        Err(refusal) => {
            drop(acts);
            Err(refusal)
        }
    }
}

/// A list of actions has one reading: what its pieces say, one added to the other, or the fault of
/// the first that is refused; those before it are good.
pub fn one_reading_of_actions()
    ensures is { (stand : Stand) (text : List ℕ) → AreActs stand text (actions_in stand text) }
    ensures only { (stand : Stand) (text : List ℕ) (answer : Result Acts Bad) → AreActs stand text answer
        → answer ≡ actions_in stand text }
{}
