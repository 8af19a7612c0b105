ghost use Rattle.std.specs.Prelude.{◌≡◌, ◌≤◌, ◌∷◌, ◌++◌, [], IfErr, IfOk, IfSome, OnOk, Some, decimal, false, true, unwrap_or};
ghost use Rattle.std.specs.Option.{option_copied};
ghost use Rattle.sec_parts.specs.Results.{Gives};
ghost use Rattle.waf_io.specs.Counts.{Rose};
ghost use Rattle.sec_read.specs.Links.{acting, action_line, acts_of, always, first_link, further_link, link_of, linked, rule_line, rule_of, rule_with, stand_of, tested, with_rule};
ghost use Rattle.sec_parts.specs.Operators.{operator_of};
ghost use Rattle.sec_read.specs.Items.{has_id, is_full};
ghost use Rattle.sec_read.specs.Modes.{kind_in};
ghost use Rattle.sec_read.specs.Places.{operator_file, rule_file};
ghost use Rattle.sec_read.specs.Results.{Answers, Halts, IsFault, IsSpot, Tells, WhereUnread, is_unread};

use crate::at::At;
use crate::defaults::PhaseDefault;
use crate::faults::{Cause, Halt};
use crate::modes::PatternMode;
use crate::operators::read_operator_at;
use crate::reading::{Reading, Unfinished};
use sec_ast::{Disrupt, Link, Op, OpKind, Place, Rule, Target};
use sec_parts::{Acts, Operator, Refusal, Stand, read_actions, read_targets};
use std::alloc::Global;
use waf_io::Files;
use waf_plain::{Bytes, NoMemory, Seq};

// How many links a rule has at most.
pub const LINK_LIMIT: u64 = 32;

// The phase of a rule that names none.
const DEFAULT_PHASE: u8 = 2;

// What a link tests.
#[derive(Drop)]
pub struct Condition {
    pub targets: Seq<Target>,
    pub always: bool,
    pub negated: bool,
    pub op: Op,
}

// That of a `SecAction`.
fn always_true(alloc: Global) -> Condition
    ensures { result ≡ always }
{
    Condition {
        targets: Seq::new(alloc),
        always: true,
        negated: false,
        op: Op {
            kind: OpKind::UnconditionalMatch,
            text: Seq::new(alloc),
            words: Seq::new(alloc),
        },
    }
}

// Whether an action list is that of a first link.
fn stand_now(reading: &Reading) -> Stand
    ensures { result ≡ stand_of reading.now.unfinished }
{
    match &reading.unfinished {
        None => Stand::First,
        Some(_) => Stand::Later,
    }
}

// What a rule does that the transaction is told of, and where the rule stands.
fn origin(
    alloc: Global,
    at: At<'_>,
    acts: &Acts,
    default: &PhaseDefault,
) -> Result<(Disrupt, Place), NoMemory>
    ensures disrupt { IfOk result (λ origin. origin.0 ≡ unwrap_or acts.now.disrupt default.now.disrupt) }
    ensures file { IfOk result (λ origin. (origin.1).file ≡ at.entry.file.now) }
    ensures line { IfOk result (λ origin. (origin.1).line ≡ at.entry.line) }
{
    let file = Bytes::copy(alloc, at.file)?;
    let disrupt = default.disrupt_or(&acts.disrupt)?;
    let place = Place {
        file,
        line: at.line,
    };
    Ok((disrupt, place))
}

// A rule by its first link.
fn make_rule(
    alloc: Global,
    at: At<'_>,
    id: u32,
    condition: Condition,
    acts: Acts,
    default: &PhaseDefault,
) -> Result<Rule, NoMemory>
    ensures { IfOk result (λ rule. rule ≡ rule_of at.entry.file.now at.entry.line id condition acts default.now) }
{
    match origin(alloc, at, &acts, default) {
        Ok((disrupt, place)) => {
            let (rule, link) = parted(alloc, id, disrupt, place, condition, acts, default);
            with_link(rule, link)
        }
        Err(no_memory) => {
            drop(condition);
            drop(acts);
            Err(no_memory)
        }
    }
}

// A rule without its first link, and that.
fn parted(
    alloc: Global,
    id: u32,
    disrupt: Disrupt,
    place: Place,
    condition: Condition,
    acts: Acts,
    default: &PhaseDefault,
) -> (Rule, Link)
    ensures rule { result.0 ≡ record (rule_of place.file place.line id condition acts default.now)
        { links = []; disrupt = disrupt } }
    ensures link { result.1 ≡ link_of condition acts }
{
    let rule = Rule {
        id,
        phase: acts.phase.unwrap_or(DEFAULT_PHASE),
        links: Seq::new(alloc),
        disrupt,
        status: acts.status.unwrap_or(default.status),
        log: acts.log.unwrap_or(default.log),
        msg: acts.msg,
        logdata: acts.logdata,
        tags: acts.tags,
        skip: acts.skip,
        skip_after: acts.skip_after,
        place,
    };
    let link = Link {
        targets: condition.targets,
        always: condition.always,
        negated: condition.negated,
        op: condition.op,
        transforms: acts.transforms,
        capture: acts.capture,
        multi: acts.multi,
        setvars: acts.setvars,
        ctls: acts.ctls,
    };
    (rule, link)
}

fn with_link(rule: Rule, link: Link) -> Result<Rule, NoMemory>
    ensures { IfOk result (λ whole. whole ≡ record rule { links = rule.links ++ link ∷ [] }) }
{
    let mut rule = rule;
    match rule.links.push(link) {
        Ok(()) => Ok(rule),
        Err(no_memory) => {
            drop(rule);
            Err(no_memory)
        }
    }
}

fn make_link(condition: Condition, acts: Acts) -> Link
    ensures { result ≡ link_of condition acts }
{
    Link {
        targets: condition.targets,
        always: condition.always,
        negated: condition.negated,
        op: condition.op,
        transforms: acts.transforms,
        capture: acts.capture,
        multi: acts.multi,
        setvars: acts.setvars,
        ctls: acts.ctls,
    }
}

// A rule that is whole, or that waits for its next link.
fn add_rule(
    alloc: Global,
    chain: bool,
    line: u32,
    rule: Rule,
    reading: &mut Reading,
) -> Result<(), NoMemory>
    ensures { OnOk result (reading.new ≡ with_rule chain line rule reading.old) }
{
    if chain {
        drop(reading.unfinished.replace(Unfinished { rule, line }));
        return Ok(());
    }
    drop(reading.unfinished.take());
    reading.items.push_rule(alloc, rule)
}

// A fault whose word is an identifier.
fn at_id(alloc: Global, at: At<'_>, cause: Cause, id: u32) -> Halt
    ensures { IsFault result at.entry.file.now at.entry.line cause (decimal id) }
{
    let mut buffer = itoa::Buffer::new();
    at.fault(alloc, cause, buffer.format(id).as_bytes())
}

// The identifier of a rule, which has to be a new one and to have room.
fn first_id(alloc: Global, at: At<'_>, given: Option<u32>, reading: &Reading) -> Result<u32, Halt>
    ensures given { IfOk result (λ id. given ≡ Some id) }
    ensures new { IfOk result (λ id. has_id id reading.now.items ≡ false) }
    ensures room { IfOk result (λ id. is_full reading.now.items ≡ false) }
    ensures fault { IfErr result (λ halt. (condition : Condition) (acts : Acts)
        → Halts halt (first_link at.entry.file.now at.entry.line condition given acts reading.now)) }
{
    let Some(id) = given else {
        return Err(at.fault(alloc, Cause::NoId, b""));
    };
    if reading.items.has_id(id) {
        return Err(at_id(alloc, at, Cause::DoubleId, id));
    }
    if reading.items.is_full() {
        return Err(at_id(alloc, at, Cause::TooLong, id));
    }
    Ok(id)
}

fn add_first_link(
    alloc: Global,
    at: At<'_>,
    condition: Condition,
    acts: Acts,
    reading: &mut Reading,
) -> Result<(), Halt>
    ensures { Answers (λ _. reading.new) result
        (first_link at.entry.file.now at.entry.line condition acts.id acts reading.old) }
{
    let id = match first_id(alloc, at, acts.id, reading) {
        Ok(id) => id,
        Err(halt) => {
            drop(condition);
            drop(acts);
            return Err(halt);
        }
    };
    let chain = acts.chain;
    let default = reading.defaults.of(acts.phase.unwrap_or(DEFAULT_PHASE));
    let rule = make_rule(alloc, at, id, condition, acts, default)?;
    add_rule(alloc, chain, at.line, rule, reading)?;
    Ok(())
}

fn add_further_link(
    alloc: Global,
    at: At<'_>,
    condition: Condition,
    acts: Acts,
    rule: Rule,
    reading: &mut Reading,
) -> Result<(), Halt>
    ensures { Answers (λ _. reading.new) result
        (further_link at.entry.file.now at.entry.line condition acts rule reading.old) }
{
    if rule.links.len() >= LINK_LIMIT {
        drop(rule);
        drop(condition);
        drop(acts);
        return Err(at.fault(alloc, Cause::TooLong, b""));
    }
    let chain = acts.chain;
    let rule = with_link(rule, make_link(condition, acts))?;
    add_rule(alloc, chain, at.line, rule, reading)?;
    Ok(())
}

fn add_link(
    alloc: Global,
    at: At<'_>,
    condition: Condition,
    acts: Acts,
    reading: &mut Reading,
) -> Result<(), Halt>
    ensures { Answers (λ _. reading.new) result
        (linked at.entry.file.now at.entry.line condition acts reading.old.unfinished reading.old) }
{
    match reading.unfinished.take() {
        None => add_first_link(alloc, at, condition, acts, reading),
        Some(Unfinished { rule, line: _ }) => {
            add_further_link(alloc, at, condition, acts, rule, reading)
        }
    }
}

// What the action list of a link says, which may be missing.
fn read_acts(alloc: Global, stand: Stand, actions: Option<&[u8]>) -> Result<Acts, Refusal>
    ensures { Gives (λ a. a) result (acts_of stand (option_copied actions.entry)) }
{
    match actions {
        None => Ok(Acts::none(alloc)),
        Some(text) => read_actions(alloc, stand, text),
    }
}

// The actions of a link whose targets and operator were read.
fn read_acting(
    alloc: Global,
    at: At<'_>,
    targets: Seq<Target>,
    stated: (Operator, u64),
    actions: Option<&[u8]>,
    reading: &mut Reading,
) -> Result<(), Halt>
    ensures { Answers (λ _. reading.new) result
        (acting at.entry.file.now at.entry.line targets (option_copied actions.entry) reading.old stated) }
{
    let (operator, total) = stated;
    let acts = at.placed(alloc, read_acts(alloc, stand_now(reading), actions))?;
    reading.total = total;
    let condition = condition_of(reading.mode, targets, operator);
    add_link(alloc, at, condition, acts, reading)
}

#[tactic(auto, unfolding(crate::specs::Links::rule_with))]
fn read_rule<F: Files>(
    alloc: Global,
    files: &mut F,
    at: At<'_>,
    targets: &[u8],
    operator: &[u8],
    actions: Option<&[u8]>,
    reading: &mut Reading,
) -> Result<(), Halt>
    ensures same { F.content files.new ≡ F.content files.old }
    ensures later { F.faults files.old ≤ F.faults files.new }
    ensures cause { IfErr result (λ halt. is_unread halt ≡ true → Rose (F.faults files.old) (F.faults files.new)) }
    ensures place { IfErr result (λ halt.
        WhereUnread halt (IsSpot at.entry.file.now at.entry.line (operator_file (operator_of operator.now)))) }
    ensures told { IfSome (F.content files.old) (λ told.
        Tells (λ _. reading.new) result
        (rule_with told at.entry.file.now at.entry.line targets.now operator.now
        (option_copied actions.entry) reading.old)) }
{
    let targets = at.placed(alloc, read_targets(alloc, targets))?;
    let stated = read_operator_at(alloc, files, at, operator, reading.total)?;
    read_acting(alloc, at, targets, stated, actions, reading)
}

fn condition_of(mode: PatternMode, targets: Seq<Target>, operator: Operator) -> Condition
    ensures { result ≡ tested mode targets operator }
{
    Condition {
        targets,
        always: false,
        negated: operator.negated,
        op: in_mode(mode, operator.op),
    }
}

// What an operator is in a mode.
fn in_mode(mode: PatternMode, op: Op) -> Op
    ensures { result ≡ record op { kind = kind_in mode op.kind } }
{
    Op {
        kind: mode.kind_of(op.kind),
        text: op.text,
        words: op.words,
    }
}

// The line of a `SecRule`.
pub fn read_rule_line<F: Files>(
    alloc: Global,
    files: &mut F,
    at: At<'_>,
    name: &[u8],
    given: &[Bytes],
    reading: &mut Reading,
) -> Result<(), Halt>
    ensures same { F.content files.new ≡ F.content files.old }
    ensures later { F.faults files.old ≤ F.faults files.new }
    ensures cause { IfErr result (λ halt. is_unread halt ≡ true → Rose (F.faults files.old) (F.faults files.new)) }
    ensures place { IfErr result (λ halt.
        WhereUnread halt (IsSpot at.entry.file.now at.entry.line (rule_file given.now))) }
    ensures told { IfSome (F.content files.old) (λ told.
        Tells (λ _. reading.new) result
        (rule_line told at.entry.file.now at.entry.line name.now given.now reading.old)) }
{
    match given {
        [targets, operator] => {
            let operator = operator.as_slice();
            read_rule(
                alloc,
                files,
                at,
                targets.as_slice(),
                operator,
                None,
                reading,
            )
        }
        [targets, operator, actions] => {
            let operator = operator.as_slice();
            let actions = Some(actions.as_slice());
            read_rule(
                alloc,
                files,
                at,
                targets.as_slice(),
                operator,
                actions,
                reading,
            )
        }
        _ => Err(at.fault(alloc, Cause::BadWord, name)),
    }
}

// The line of a `SecAction`.
pub fn read_action_line(
    alloc: Global,
    at: At<'_>,
    name: &[u8],
    given: &[Bytes],
    reading: &mut Reading,
) -> Result<(), Halt>
    ensures { Answers (λ _. reading.new) result
        (action_line at.entry.file.now at.entry.line name.now given.now reading.old) }
{
    match given {
        [actions] => {
            let read = read_actions(alloc, stand_now(reading), actions.as_slice());
            let acts = at.placed(alloc, read)?;
            add_link(alloc, at, always_true(alloc), acts, reading)
        }
        _ => Err(at.fault(alloc, Cause::BadWord, name)),
    }
}
