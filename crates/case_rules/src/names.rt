// The names of the rule language, read in either case, and the canonical name of each.

use case_text::Answer;
use sec_ast::{Engine, OpKind, Processor, Transform, Var};
use std::alloc::Global;
use waf_plain::Bytes;

/// `variable NAME`, `operator NAME`, `transformation NAME`, `engine NAME` or `processor NAME`: the
/// canonical name, and for a variable what it is; `none` where the name is none.
pub fn answer(_alloc: Global, given: &[Bytes], out: &mut Answer) {
    let [call, name] = given else {
        return out.malformed();
    };
    let name = name.as_slice();
    match call.as_slice() {
        b"variable" => variable(Var::named(name), out),
        b"operator" => canonical(OpKind::named(name).map(|kind| kind.name()), out),
        b"transformation" => canonical(Transform::named(name).map(|kind| kind.name()), out),
        _ => setting(call.as_slice(), name, out),
    }
}

fn setting(call: &[u8], name: &[u8], out: &mut Answer) {
    match call {
        b"engine" => canonical(Engine::named(name).map(|engine| engine.name()), out),
        b"processor" => canonical(Processor::named(name).map(|kind| kind.name()), out),
        _ => out.malformed(),
    }
}

fn canonical(name: Option<&[u8]>, out: &mut Answer) {
    match name {
        Some(name) => out.plain(name),
        None => out.plain(b"none"),
    }
}

fn variable(var: Option<Var>, out: &mut Answer) {
    match var {
        Some(var) => {
            out.plain(var.name());
            out.choice(var.is_collection(), b"collection", b"single")
        }
        None => out.plain(b"none"),
    }
}
