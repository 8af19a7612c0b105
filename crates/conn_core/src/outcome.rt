ghost use Rattle.std.specs.Prelude.{◌≡◌, ◌++◌, OnOk};
ghost use Rattle.conn_core.specs.Outcome.{act_actions, actions_of, done_actions, id_actions, number_action};
ghost use Rattle.conn_core.specs.Outcome.{text_action, verdict_actions};

use sec_ast::{Verdict, VerdictAct};
use spop_data::Data;
use spop_talk::Action;
use spop_web::{AckError, AckVariable, Arg};
use std::alloc::Global;
use waf_plain::{Bytes, NoMemory, Seq};

/// What became of a message.
#[derive(Debug, Drop)]
pub enum Outcome {
    /// It was judged, and no rule interrupted it.
    Passed,
    Stopped(Verdict),
    /// Any error but `BadArgument`.
    Failed(AckError),
    /// Its first bad argument, which is `BadArgument`.
    Bad(Arg),
}

// Adds the actions that answer a message.
pub(crate) fn add_outcome(
    alloc: Global,
    id: Option<Bytes>,
    outcome: Outcome,
    actions: &mut Seq<Action>,
) -> Result<(), NoMemory>
    ensures { OnOk result (actions.new ≡ actions.old ++ actions_of id outcome) }
{
    add_id(alloc, id, actions)?;
    match outcome {
        Outcome::Passed => Ok(()),
        Outcome::Stopped(verdict) => add_verdict(alloc, verdict, actions),
        Outcome::Failed(error) => add_number(alloc, AckVariable::Error, error.number(), actions),
        Outcome::Bad(arg) => {
            let name = Bytes::copy(alloc, arg.name())?;
            add_text(alloc, AckVariable::Data, name, actions)?;
            add_number(
                alloc,
                AckVariable::Error,
                AckError::BadArgument.number(),
                actions,
            )
        }
    }
}

fn add_id(alloc: Global, id: Option<Bytes>, actions: &mut Seq<Action>) -> Result<(), NoMemory>
    ensures { OnOk result (actions.new ≡ actions.old ++ id_actions id) }
{
    match id {
        None => Ok(()),
        Some(id) => add_text(alloc, AckVariable::Id, id, actions),
    }
}

fn add_verdict(alloc: Global, verdict: Verdict, actions: &mut Seq<Action>) -> Result<(), NoMemory>
    ensures { OnOk result (actions.new ≡ actions.old ++ verdict_actions verdict) }
{
    let Verdict { rule, act, status } = verdict;
    add_act(alloc, act, status, actions)?;
    add_number(alloc, AckVariable::RuleId, rule, actions)
}

fn add_act(
    alloc: Global,
    act: VerdictAct,
    status: u32,
    actions: &mut Seq<Action>,
) -> Result<(), NoMemory>
    ensures { OnOk result (actions.new ≡ actions.old ++ act_actions act status) }
{
    match act {
        VerdictAct::Deny => add_done(alloc, b"deny", status, actions),
        VerdictAct::Drop => add_done(alloc, b"drop", status, actions),
        VerdictAct::Redirect(location) => {
            add_done(alloc, b"redirect", status, actions)?;
            add_text(alloc, AckVariable::Data, location, actions)
        }
    }
}

fn add_done(
    alloc: Global,
    word: &[u8],
    status: u32,
    actions: &mut Seq<Action>,
) -> Result<(), NoMemory>
    ensures { OnOk result (actions.new ≡ actions.old ++ done_actions word.now status) }
{
    let word = Bytes::copy(alloc, word)?;
    add_text(alloc, AckVariable::Action, word, actions)?;
    add_number(alloc, AckVariable::Status, status, actions)
}

fn add_text(
    alloc: Global,
    variable: AckVariable,
    text: Bytes,
    actions: &mut Seq<Action>,
) -> Result<(), NoMemory>
    ensures { OnOk result (actions.new ≡ actions.old ++ text_action variable text) }
{
    let name = Bytes::copy(alloc, variable.name())?;
    let value = Data::Text(text);
    actions.push(Action { name, value })
}

fn add_number(
    alloc: Global,
    variable: AckVariable,
    number: u32,
    actions: &mut Seq<Action>,
) -> Result<(), NoMemory>
    ensures { OnOk result (actions.new ≡ actions.old ++ number_action variable number) }
{
    let name = Bytes::copy(alloc, variable.name())?;
    let value = Data::Uint32(number);
    actions.push(Action { name, value })
}
