use case_text::Answer;
use sec_ast::Transform;
use sec_transforms::apply;
use std::alloc::Global;
use waf_plain::{Bytes, NoMemory};

/// `NAME VALUE`, then what the transformation gives of the value.
pub fn answer(alloc: Global, given: &[Bytes], out: &mut Answer) {
    let [name, value] = given else {
        return out.malformed();
    };
    match Transform::named(name.as_slice()) {
        Some(transform) => put_result(apply(alloc, transform, value.as_slice()), out),
        None => out.malformed(),
    }
}

fn put_result(came: Result<Bytes, NoMemory>, out: &mut Answer) {
    match came {
        Ok(came) => out.quoted(came.as_slice()),
        Err(NoMemory) => out.no_memory(),
    }
}
