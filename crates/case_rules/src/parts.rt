// The parts of a directive: macros, lists of targets, operators and lists of actions.

use crate::parts_actions::put_acts;
use case_text::Answer;
use sec_ast::{Macro, Op, Part, Select, Target};
use sec_parts::{
    Flaw, Operator, Refusal, Stand, read_actions, read_macro, read_operator, read_targets,
};
use std::alloc::Global;
use waf_plain::{Bytes, Seq};

/// `macro TEXT`, `targets TEXT`, `operator TEXT`, and `first TEXT`, `later TEXT` or `defaults TEXT` for
/// the actions of a first link, of a later one and of defaults. What was read, or the fault with its word.
pub fn answer(alloc: Global, given: &[Bytes], out: &mut Answer) {
    let [call, text] = given else {
        return out.malformed();
    };
    let text = text.as_slice();
    match call.as_slice() {
        b"macro" => a_macro(alloc, text, out),
        b"targets" => targets(alloc, text, out),
        b"operator" => operator(alloc, text, out),
        call => match stand_of(call) {
            Some(stand) => actions(alloc, stand, text, out),
            None => out.malformed(),
        },
    }
}

fn stand_of(call: &[u8]) -> Option<Stand> {
    match call {
        b"first" => Some(Stand::First),
        b"later" => Some(Stand::Later),
        b"defaults" => Some(Stand::Defaults),
        _ => None,
    }
}

fn refused(refusal: &Refusal, out: &mut Answer) {
    match refusal {
        Refusal::NoMemory => out.no_memory(),
        Refusal::Bad(bad) => out.named(flaw_name(bad.flaw), bad.word.as_slice()),
    }
}

fn flaw_name(flaw: Flaw) -> &'static [u8] {
    match flaw {
        Flaw::RefusedByName => b"RefusedByName",
        Flaw::BadWord => b"BadWord",
        Flaw::OpenQuote => b"OpenQuote",
    }
}

fn a_macro(alloc: Global, text: &[u8], out: &mut Answer) {
    match read_macro(alloc, text) {
        Ok(parts) => put_macro(&parts, out),
        Err(refusal) => refused(&refusal, out),
    }
}

/// Each text as a quoted word, and each reference as `ref`, its variable and its key.
pub fn put_macro(parts: &Macro, out: &mut Answer) {
    for part in parts.as_slice() {
        put_part(part, out);
    }
}

fn put_part(part: &Part, out: &mut Answer) {
    match part {
        Part::Text(text) => out.quoted(text.as_slice()),
        Part::Ref(var, key) => {
            out.plain(b"ref");
            out.plain(var.name());
            put_named(b"key", key, out)
        }
    }
}

fn put_named(name: &[u8], text: &Option<Bytes>, out: &mut Answer) {
    match text {
        Some(text) => out.named(name, text.as_slice()),
        None => {}
    }
}

fn targets(alloc: Global, text: &[u8], out: &mut Answer) {
    match read_targets(alloc, text) {
        Ok(targets) => put_targets(&targets, out),
        Err(refusal) => refused(&refusal, out),
    }
}

fn put_targets(targets: &Seq<Target>, out: &mut Answer) {
    for target in targets.as_slice() {
        put_target(target, out);
    }
}

fn put_target(target: &Target, out: &mut Answer) {
    put_sign(target.exclude, b"!", out);
    put_sign(target.count, b"&", out);
    out.plain(target.var.name());
    match &target.select {
        Select::All => out.plain(b"all"),
        Select::Name(name) => out.named(b"name", name.as_slice()),
        Select::Pattern(pattern) => out.named(b"pattern", pattern.as_slice()),
    }
}

/// A plain word where something holds.
pub fn put_sign(holds: bool, sign: &[u8], out: &mut Answer) {
    if holds {
        out.plain(sign)
    }
}

fn operator(alloc: Global, text: &[u8], out: &mut Answer) {
    match read_operator(alloc, text) {
        Ok(operator) => put_operator(&operator, out),
        Err(refusal) => refused(&refusal, out),
    }
}

fn put_operator(operator: &Operator, out: &mut Answer) {
    put_sign(operator.negated, b"!", out);
    put_op(&operator.op, out);
    put_named(b"file", &operator.file, out)
}

fn put_op(op: &Op, out: &mut Answer) {
    out.plain(op.kind.name());
    put_macro(&op.text, out);
    for word in op.words.as_slice() {
        out.named(b"word", word.as_slice());
    }
}

fn actions(alloc: Global, stand: Stand, text: &[u8], out: &mut Answer) {
    match read_actions(alloc, stand, text) {
        Ok(acts) => put_acts(&acts, out),
        Err(refusal) => refused(&refusal, out),
    }
}
