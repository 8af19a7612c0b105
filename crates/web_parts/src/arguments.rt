ghost use Rattle.std.specs.Prelude.{◌≡◌, IfOk};
ghost use Rattle.form_urlencoded.specs.Form as form;
ghost use Rattle.web_parts.specs.Arguments.{argument_rows};

use crate::NameValue;
use form_urlencoded::raw_pairs;
use percent_encoding::percent_decode;
use std::alloc::Global;
use waf_plain::{Bytes, NoMemory, Seq};

/// A row for each argument of a query or of a form body, in order, as bytes (URL Standard, 5.1). Pairs
/// stand between `&`, empty ones are passed over, and the first `=` parts name and value. `+` is a space,
/// `%` and two hexadecimal digits are that byte, and another `%` is itself.
pub fn argument_rows(alloc: Global, text: &[u8]) -> Result<Seq<NameValue>, NoMemory>
    ensures { IfOk result (λ rows. rows ≡ argument_rows text.now) }
{
    let mut rows = Seq::new(alloc);
    for (name, value) in raw_pairs(text) {
        let name = decoded(alloc, name)?;
        let value = decoded(alloc, value)?;
        rows.push(NameValue { name, value })?;
    }
    Ok(rows)
}

// The bytes that a name or a value stands for.
fn decoded(alloc: Global, raw: &[u8]) -> Result<Bytes, NoMemory>
    ensures { IfOk result (λ bytes. bytes ≡ form.decode raw.now) }
{
    let spaced = raw.iter().map(|&b| if b == b'+' { b' ' } else { b });
    let spaced: Vec<u8> = spaced.collect(alloc)?;
    let mut bytes = Vec::new(alloc);
    percent_decode(spaced.as_slice()).append_to(&mut bytes)?;
    Ok(Bytes::from_vec(bytes))
}
