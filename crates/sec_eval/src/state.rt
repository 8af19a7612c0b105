ghost use Rattle.std.specs.Prelude.{◌≡◌, [], Some, IfOk, OnOk};
ghost use Rattle.sec_meaning.specs.Judgement.{answered, start};
ghost use Rattle.sec_meaning.specs.Phase.{is_removed, opened};
ghost use Rattle.sec_meaning.specs.State.{view_of};

use crate::text::expanded;
use sec_ast::{Ctl, Engine, Listing, LogLine, Macro, Rule, Verdict};
use sec_collect::Vars;
use sec_compile::Ruleset;
use sec_meaning::phase_number::REQUEST_HEADERS;
use sec_meaning::{Removed, Text, Transaction, is_named_by};
use std::alloc::Global;
use std::marker::Model;
use std::mem;
use waf_plain::{Bytes, NoMemory, Seq};
use web_parts::{Request, Response};

/// The state of a transaction between its phases. After `NoMemory` it is only dropped.
#[derive(Drop)]
pub struct State {
    vars: Vars,
    engine: Engine,
    request_body: bool,
    response_body: bool,
    removed_rules: Seq<Removed>,
    next_phase: u8,
    verdict: Option<Verdict>,
    lines: Seq<LogLine>,
}

impl Model for State {
    ghost use Rattle.sec_meaning.specs.declared.state.PlainState.{PlainState};

    ghost Value = { PlainState };

    ghost use Rattle.sec_eval.specs.Seen.{seen};

    ghost view = { seen };
}

impl State {
    /// The state before the first phase.
    pub fn start(alloc: Global, rules: &Ruleset, request: Request) -> Result<State, NoMemory>
        ensures { IfOk result (λ state. state ≡ start rules.now request) }
    {
        let vars = Vars::new(alloc, request)?;
        let listing = rules.listing();
        Ok(State {
            vars,
            engine: listing.engine,
            request_body: listing.request_body,
            response_body: listing.response_body,
            removed_rules: Seq::new(alloc),
            next_phase: REQUEST_HEADERS,
            verdict: None,
            lines: Seq::new(alloc),
        })
    }

    /// Adds the response, before its phases. Its body is read where that is on by now.
    pub fn answer(&mut self, alloc: Global, response: Response) -> Result<(), NoMemory>
        ensures { OnOk result (self.new ≡ answered response self.old) }
    {
        self.vars.add_response(alloc, response, self.response_body)
    }

    /// What rows are made from.
    pub fn vars(&self) -> &Vars
        ensures { result.now ≡ view_of self.now }
    {
        &self.vars
    }

    /// The log lines so far, but for those that were taken.
    pub fn lines(&self) -> &Seq<LogLine>
        ensures { result.now ≡ self.now.lines }
    {
        &self.lines
    }

    /// Takes the log lines out.
    pub fn take_lines(&mut self, alloc: Global) -> Seq<LogLine>
        ensures taken { result ≡ self.old.lines }
        ensures left { self.new ≡ record self.old { lines = [] } }
    {
        mem::replace(&mut self.lines, Seq::new(alloc))
    }

    pub(crate) fn next_phase(&self) -> u8
        ensures { result ≡ self.now.next_phase }
    {
        self.next_phase
    }

    pub(crate) fn is_removed(&self, rule: &Rule) -> bool
        ensures { result ≡ is_removed rule.now self.now }
    {
        self.removed_rules
            .as_slice()
            .iter()
            .any(|removed| is_named_by(rule, removed))
    }

    pub(crate) fn set_next_phase(&mut self, number: u8)
        ensures { self.new ≡ record self.old { next_phase = number } }
    {
        self.next_phase = number;
    }

    pub(crate) fn interrupt(&mut self, verdict: Verdict)
        ensures { self.new ≡ record self.old { verdict = Some verdict } }
    {
        self.verdict = Some(verdict);
    }

    /// Opens the request's body where it is read, before the rules of its phase.
    pub(crate) fn open_body(&mut self, alloc: Global, listing: &Listing) -> Result<(), NoMemory>
        ensures { OnOk result (self.new ≡ opened listing.now self.old) }
    {
        if self.request_body {
            let processor = self.vars.chosen_processor();
            self.vars.add_body(alloc, processor, listing.request_limit)?;
        }
        Ok(())
    }
}

impl Transaction for State {
    ghost seen = { λ s. s };

    fn expanded<'a>(&self, alloc: Global, text: &'a Macro) -> Result<Text<'a>, NoMemory> {
        expanded(alloc, self.vars(), text)
    }

    fn engine(&self) -> Engine {
        self.engine
    }

    fn tx_value(&self, name: &[u8]) -> &[u8] {
        self.vars.tx_value(name)
    }

    fn set_tx(&mut self, alloc: Global, name: &[u8], value: &[u8]) -> Result<(), NoMemory> {
        self.vars.set_tx(alloc, name, value)
    }

    fn delete_tx(&mut self, alloc: Global, name: &[u8]) {
        self.vars.delete_tx(alloc, name);
    }

    fn capture(&mut self, alloc: Global, groups: &Seq<Option<Bytes>>) -> Result<(), NoMemory> {
        self.vars.capture(alloc, groups)
    }

    fn forget_matched(&mut self, alloc: Global) {
        self.vars.forget_matched(alloc);
    }

    fn add_matched(&mut self, full_name: Bytes, value: Bytes) -> Result<(), NoMemory> {
        self.vars.add_matched(full_name, value)
    }

    fn add_line(&mut self, line: LogLine) -> Result<(), NoMemory> {
        self.lines.push(line)
    }

    fn control(&mut self, ctl: &Ctl) -> Result<(), NoMemory> {
        match ctl {
            Ctl::Engine(engine) => {
                self.engine = *engine;
                Ok(())
            }
            Ctl::RequestBody(is_read) => {
                self.request_body = *is_read;
                Ok(())
            }
            Ctl::ResponseBody(is_read) => {
                self.response_body = *is_read;
                Ok(())
            }
            Ctl::Body(processor) => {
                self.vars.set_processor(*processor);
                Ok(())
            }
            Ctl::RemoveById(first, last) => self.removed_rules.push(Removed::Ids(*first, *last)),
            Ctl::RemoveByTag(tag) => {
                let tag = tag.clone()?;
                self.removed_rules.push(Removed::Tag(tag))
            }
        }
    }
}
