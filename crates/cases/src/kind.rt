use crate::{commands, connections, scripts, shown};
use case_rules::{
    chains, directives, limits, names, operators, parts, patterns, rule_lines, rules, transforms,
    variables,
};
use case_text::Answer;
use case_wire::{
    acks, addresses, arguments, configuration, frames, hello, messages, pairs, rows, typed_data,
    varints,
};
use std::alloc::Global;
use waf_plain::Bytes;

/// What the cases of a file ask, one variant a kind.
#[derive(Clone, Copy, Debug, PartialEq, Eq)]
pub enum Kind {
    Acks,
    Addresses,
    Arguments,
    Chains,
    Commands,
    Configuration,
    Connections,
    Directives,
    Frames,
    Hello,
    Limits,
    Lines,
    Messages,
    Names,
    Operators,
    Pairs,
    Parts,
    Patterns,
    Rows,
    Rules,
    Scripts,
    Shown,
    Transforms,
    TypedData,
    Variables,
    Varints,
}

// Every kind.
const KINDS: [Kind; 26] = [
    Kind::Acks,
    Kind::Addresses,
    Kind::Arguments,
    Kind::Chains,
    Kind::Commands,
    Kind::Configuration,
    Kind::Connections,
    Kind::Directives,
    Kind::Frames,
    Kind::Hello,
    Kind::Limits,
    Kind::Lines,
    Kind::Messages,
    Kind::Names,
    Kind::Operators,
    Kind::Pairs,
    Kind::Parts,
    Kind::Patterns,
    Kind::Rows,
    Kind::Rules,
    Kind::Scripts,
    Kind::Shown,
    Kind::Transforms,
    Kind::TypedData,
    Kind::Variables,
    Kind::Varints,
];

impl Kind {
    /// The kind of the file of this path: the one with whose name the file's begins, so that
    /// `rules_drawn.txt` has rules as `rules.txt` has.
    pub fn of_file(path: &[u8]) -> Option<Kind> {
        let name = last_part(path);
        KINDS
            .iter()
            .copied()
            .find(|kind| name.starts_with(kind.form().name))
    }

    /// How many words of a line are given. Those after them are wanted.
    pub fn given(self) -> usize {
        self.form().given
    }

    fn form(self) -> Form {
        match self {
            Kind::Acks => of(b"acks", 4),
            Kind::Addresses => of(b"addresses", 2),
            Kind::Arguments => of(b"arguments", 1),
            Kind::Chains => of(b"chains", 4),
            Kind::Commands => of(b"commands", 4),
            Kind::Configuration => of(b"configuration", 1),
            Kind::Connections => of(b"connections", 2),
            Kind::Directives => of(b"directives", 2),
            Kind::Frames => of(b"frames", 3),
            Kind::Hello => of(b"hello", 2),
            Kind::Limits => of(b"limits", 5),
            Kind::Lines => of(b"lines", 2),
            Kind::Messages => of(b"messages", 1),
            Kind::Names => of(b"names", 2),
            Kind::Operators => of(b"operators", 3),
            Kind::Pairs => of(b"pairs", 2),
            Kind::Parts => of(b"parts", 2),
            Kind::Patterns => of(b"patterns", 3),
            Kind::Rows => of(b"rows", 2),
            Kind::Rules => of(b"rules", 3),
            Kind::Scripts => of(b"scripts", 1),
            Kind::Shown => of(b"shown", 4),
            Kind::Transforms => of(b"transforms", 2),
            Kind::TypedData => of(b"typed_data", 2),
            Kind::Variables => of(b"variables", 5),
            Kind::Varints => of(b"varints", 2),
        }
    }

    /// Adds what the given words come to.
    pub fn answer(self, alloc: Global, given: &[Bytes], out: &mut Answer) {
        match self {
            Kind::Acks => acks::answer(alloc, given, out),
            Kind::Addresses => addresses::answer(alloc, given, out),
            Kind::Arguments => arguments::answer(alloc, given, out),
            Kind::Configuration => configuration::answer(alloc, given, out),
            Kind::Frames => frames::answer(alloc, given, out),
            Kind::Hello => hello::answer(alloc, given, out),
            _ => self.answer_of_values(alloc, given, out),
        }
    }

    fn answer_of_values(self, alloc: Global, given: &[Bytes], out: &mut Answer) {
        match self {
            Kind::Messages => messages::answer(alloc, given, out),
            Kind::Pairs => pairs::answer(alloc, given, out),
            Kind::Rows => rows::answer(alloc, given, out),
            Kind::TypedData => typed_data::answer(alloc, given, out),
            Kind::Varints => varints::answer(alloc, given, out),
            Kind::Transforms => transforms::answer(alloc, given, out),
            _ => self.answer_of_parts(alloc, given, out),
        }
    }

    fn answer_of_parts(self, alloc: Global, given: &[Bytes], out: &mut Answer) {
        match self {
            Kind::Chains => chains::answer(alloc, given, out),
            Kind::Lines => rule_lines::answer(alloc, given, out),
            Kind::Names => names::answer(alloc, given, out),
            Kind::Operators => operators::answer(alloc, given, out),
            Kind::Parts => parts::answer(alloc, given, out),
            Kind::Patterns => patterns::answer(alloc, given, out),
            _ => self.answer_of_runs(alloc, given, out),
        }
    }

    fn answer_of_runs(self, alloc: Global, given: &[Bytes], out: &mut Answer) {
        match self {
            Kind::Directives => directives::answer(alloc, given, out),
            Kind::Limits => limits::answer(alloc, given, out),
            Kind::Rules => rules::answer(alloc, given, out),
            Kind::Variables => variables::answer(alloc, given, out),
            Kind::Commands => commands::answer(alloc, given, out),
            Kind::Connections => connections::answer(alloc, given, out),
            _ => self.answer_of_replays(alloc, given, out),
        }
    }

    fn answer_of_replays(self, alloc: Global, given: &[Bytes], out: &mut Answer) {
        match self {
            Kind::Scripts => scripts::answer(alloc, given, out),
            Kind::Shown => shown::answer(alloc, given, out),
            _ => out.malformed(),
        }
    }
}

// How the names of the files of a kind begin, and how many words of their lines are given.
#[derive(Clone, Copy)]
struct Form {
    name: &'static [u8],
    given: usize,
}

fn of(name: &'static [u8], given: usize) -> Form {
    Form { name, given }
}

// What stands after the last `/` of a path.
fn last_part(path: &[u8]) -> &[u8] {
    let mut last = path;
    for part in path.split(|byte| *byte == b'/') {
        last = part;
    }
    last
}
