use case_text::Answer;
use sec_ast::{Macro, Op, OpKind, Part};
use sec_ops::{BuildFault, Built, Hit, build, holds};
use std::alloc::Global;
use waf_plain::{Bytes, NoMemory, Seq};

/// `OPERATOR ARGUMENT VALUE`, then `no`, or `yes` and the text of each group, `-` for one that took no
/// part; `bad` where the pattern is none.
pub fn answer(alloc: Global, given: &[Bytes], out: &mut Answer) {
    let [name, argument, value] = given else {
        return out.malformed();
    };
    let Some(kind) = OpKind::named(name.as_slice()) else {
        return out.malformed();
    };
    match operator(alloc, kind, argument.as_slice()) {
        Ok(op) => put_answer(alloc, &op, argument.as_slice(), value.as_slice(), out),
        Err(NoMemory) => out.no_memory(),
    }
}

fn operator(alloc: Global, kind: OpKind, argument: &[u8]) -> Result<Op, NoMemory> {
    match kind {
        OpKind::Pm | OpKind::IpMatch | OpKind::ValidateByteRange => Ok(Op {
            kind,
            text: Seq::new(alloc),
            words: words_of(alloc, argument)?,
        }),
        kind => Ok(Op {
            kind,
            text: text_of(alloc, argument)?,
            words: Seq::new(alloc),
        }),
    }
}

fn text_of(alloc: Global, argument: &[u8]) -> Result<Macro, NoMemory> {
    let mut text = Seq::new(alloc);
    if !argument.is_empty() {
        text.push(Part::Text(Bytes::copy(alloc, argument)?))?;
    }
    Ok(text)
}

// The words of a list, which blanks part.
fn words_of(alloc: Global, argument: &[u8]) -> Result<Seq<Bytes>, NoMemory> {
    let mut words = Seq::new(alloc);
    for word in argument.split(|byte| *byte == b' ') {
        if !word.is_empty() {
            words.push(Bytes::copy(alloc, word)?)?;
        }
    }
    Ok(words)
}

fn put_answer(alloc: Global, op: &Op, argument: &[u8], value: &[u8], out: &mut Answer) {
    match build(alloc, op) {
        Ok(built) => ask(&built, argument, value, out),
        Err(BuildFault::BadPattern) => out.plain(b"bad"),
        Err(BuildFault::NoMemory) => out.no_memory(),
    }
}

fn ask(built: &Built, argument: &[u8], value: &[u8], out: &mut Answer) {
    match holds(built, argument, value) {
        Ok(Hit::No) => out.plain(b"no"),
        Ok(Hit::Yes { groups }) => put_groups(groups.as_slice(), out),
        Err(NoMemory) => out.no_memory(),
    }
}

fn put_groups(groups: &[Option<Bytes>], out: &mut Answer) {
    out.plain(b"yes");
    for group in groups {
        out.quoted_or_dash(group);
    }
}
