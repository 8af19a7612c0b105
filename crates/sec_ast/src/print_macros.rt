ghost use Rattle.std.specs.Prelude.{◌≡◌, ◌++◌, OnOk};
ghost use Rattle.sec_ast.specs.PrintMacros.{key_text, macro_text, part_text};

use crate::macros::{Macro, Part};
use crate::variable::Var;
use sec_text::characters::DOT;
use waf_plain::{Bytes, NoMemory};

/// Puts a macro as it is written: text as it is, references in braces.
#[tactic(auto, unfolding(crate::specs::PrintMacros::macro_text))]
pub(crate) fn put_macro(parts: &Macro, out: &mut Bytes) -> Result<(), NoMemory>
    ensures { OnOk result (out.new ≡ out.old ++ macro_text parts.now) }
{
    for part in parts.as_slice() {
        put_part(part, out)?;
    }
    Ok(())
}

fn put_part(part: &Part, out: &mut Bytes) -> Result<(), NoMemory>
    ensures { OnOk result (out.new ≡ out.old ++ part_text part.now) }
{
    match part {
        Part::Text(text) => out.append(text.as_slice()),
        Part::Ref(var, key) => put_reference(*var, key, out),
    }
}

fn put_reference(var: Var, key: &Option<Bytes>, out: &mut Bytes) -> Result<(), NoMemory>
    ensures { OnOk result (out.new ≡ out.old ++ part_text (Part.Ref var key.now)) }
{
    out.append(b"%{")?;
    out.append(var.name())?;
    put_key(key, out)?;
    out.append(b"}")
}

fn put_key(key: &Option<Bytes>, out: &mut Bytes) -> Result<(), NoMemory>
    ensures { OnOk result (out.new ≡ out.old ++ key_text key.now) }
{
    let Some(key) = key else {
        return Ok(());
    };
    out.push(DOT)?;
    out.append(key.as_slice())
}
