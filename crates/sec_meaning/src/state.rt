ghost use Rattle.std.specs.Prelude.{◌≡◌, IfOk};

use sec_ast::{Engine, LogLine, Processor, Verdict};
use sec_collect::{AddedResponse, Captures, OpenedBody, Variables};
use std::alloc::AllocError;
use waf_plain::{Bytes, Seq};
use web_parts::{NameValue, Request};

/// Rules that are passed over for the rest of a transaction.
#[derive(Debug, PartialEq, Drop)]
pub enum Removed {
    /// Those with these identifiers, the first and the last among them.
    Ids(u32, u32),
    /// Those that have this tag.
    Tag(Bytes),
}

impl Clone for Removed {
    ghost is_clone = { λ a b. b ≡ a };

    fn clone(&self) -> Result<Removed, AllocError> {
        match self {
            Removed::Ids(first, last) => Ok(Removed::Ids(*first, *last)),
            Removed::Tag(tag) => Ok(Removed::Tag(tag.clone()?)),
        }
    }
}

/// A tested value in which an operator found something, and the texts of the groups, none for a group
/// that took no part.
#[derive(Debug, Drop)]
pub struct Found {
    pub value: Bytes,
    pub groups: Seq<Option<Bytes>>,
}

/// A row that a link matched: its full name, its matched value, and the texts of the groups of the hit,
/// none for a group that took no part.
#[derive(Debug, Drop)]
pub struct Matched {
    pub name: Bytes,
    pub value: Bytes,
    pub groups: Seq<Option<Bytes>>,
}

/// The state of a transaction.
#[derive(Debug, Drop)]
pub struct PlainState {
    pub engine: Engine,
    /// Whether the request's body is read, and the response's.
    pub request_body: bool,
    pub response_body: bool,
    /// The processor that `ctl` chose, `Plain` where none did.
    pub processor: Processor,
    pub request: Request,
    /// The request's body, once it is opened.
    pub body: Option<OpenedBody>,
    pub response: Option<AddedResponse>,
    /// The variables of TX, in the order in which they were first put.
    pub tx: Variables,
    /// The captured texts, named by the numbers of their groups.
    pub captured: Captures,
    /// The matched values of the last link that held, under their full names.
    pub matched: Seq<NameValue>,
    pub removed_rules: Seq<Removed>,
    /// Phases with a lower number are jumped over.
    pub next_phase: u8,
    pub verdict: Option<Verdict>,
    pub lines: Seq<LogLine>,
}

impl Clone for PlainState {
    ghost is_clone = { λ a b. b ≡ a };

    fn clone(&self) -> Result<PlainState, AllocError> {
        let lists = copy_lists(self)?;
        match copy_messages(self) {
            Ok(messages) => Ok(with_parts(self, messages, lists)),
            Err(no_memory) => {
                drop(lists);
                Err(no_memory)
            }
        }
    }
}

// The parts of a clone that take memory are made by functions, each of few of them: what is let go where
// memory runs out makes a proof long.

type Messages = (Request, Option<AddedResponse>);

type Rows = (Variables, Captures, Seq<NameValue>);

type Results = (Seq<Removed>, Option<Verdict>, Seq<LogLine>);

// The settings of a state, with these parts beside them.
fn with_parts(state: &PlainState, messages: Messages, lists: (Rows, Results)) -> PlainState
    ensures { result ≡ record state.now {
      request = messages.0;
      response = messages.1;
      tx = lists.0.0;
      captured = lists.0.1;
      matched = lists.0.2;
      removed_rules = lists.1.0;
      verdict = lists.1.1;
      lines = lists.1.2;
    } }
{
    let (request, response) = messages;
    let ((tx, captured, matched), (removed_rules, verdict, lines)) = lists;
    PlainState {
        engine: state.engine,
        request_body: state.request_body,
        response_body: state.response_body,
        processor: state.processor,
        request,
        body: state.body,
        response,
        tx,
        captured,
        matched,
        removed_rules,
        next_phase: state.next_phase,
        verdict,
        lines,
    }
}

fn copy_lists(state: &PlainState) -> Result<(Rows, Results), AllocError>
    ensures { IfOk result (λ copy. copy
        ≡ (
          (state.now.tx, state.now.captured, state.now.matched),
          (state.now.removed_rules, state.now.verdict, state.now.lines),
        )) }
{
    let rows = copy_rows(state)?;
    match copy_results(state) {
        Ok(results) => Ok((rows, results)),
        Err(no_memory) => {
            drop(rows);
            Err(no_memory)
        }
    }
}

// What came from outside.
fn copy_messages(state: &PlainState) -> Result<Messages, AllocError>
    ensures { IfOk result (λ copy. copy ≡ (state.now.request, state.now.response)) }
{
    let request = state.request.clone()?;
    match copy_response(&state.response) {
        Ok(response) => Ok((request, response)),
        Err(no_memory) => {
            drop(request);
            Err(no_memory)
        }
    }
}

fn copy_rows(state: &PlainState) -> Result<Rows, AllocError>
    ensures { IfOk result (λ copy. copy ≡ (state.now.tx, state.now.captured, state.now.matched)) }
{
    let tx = state.tx.clone()?;
    let captured = state.captured.clone()?;
    let matched = state.matched.clone()?;
    Ok((tx, captured, matched))
}

// The rules that are passed over, the verdict, and what rules logged.
fn copy_results(state: &PlainState) -> Result<Results, AllocError>
    ensures { IfOk result (λ copy. copy ≡ (state.now.removed_rules, state.now.verdict, state.now.lines)) }
{
    let removed_rules = state.removed_rules.clone()?;
    let verdict = state.verdict.clone()?;
    let lines = state.lines.clone()?;
    Ok((removed_rules, verdict, lines))
}

fn copy_response(response: &Option<AddedResponse>) -> Result<Option<AddedResponse>, AllocError>
    ensures { IfOk result (λ copy. copy ≡ response.now) }
{
    match response {
        None => Ok(None),
        Some(added) => Ok(Some(added.clone()?)),
    }
}

/// Where a phase goes on after a rule: with the next one; after that many further ones of the phase;
/// after a marker; nowhere; nowhere, and with phase 3 or phase 5 next; or it interrupts.
#[derive(Debug, Drop)]
pub enum RuleFlow {
    Next,
    Skip(u32),
    SkipTo(Bytes),
    EndPhase,
    EndTo3,
    EndTo5,
    Interrupt(Verdict),
}

/// Which items a phase passes over: none, that many of its rules, or all up to a marker.
#[derive(Debug, Drop)]
pub enum Passing {
    Looking,
    Skipping(u32),
    Until(Bytes),
}

/// After an item a phase goes on, or is over with its verdict.
#[derive(Debug, Drop)]
pub enum After {
    GoOn(Passing),
    End(Option<Verdict>),
}

/// What a transaction comes to: a verdict on the request, one on the response, and the log lines.
#[derive(Debug, PartialEq, Drop)]
pub struct Judged {
    pub first: Option<Verdict>,
    pub second: Option<Verdict>,
    pub lines: Seq<LogLine>,
}
