ghost use Rattle.std.specs.Prelude.{◌≡◌, ◌++◌, ◌∷◌, OnOk};
ghost use Rattle.sec_ast.specs.PrintTargets.{mark_text, select_text, target_text, targets_text};

use crate::print_texts::put_escaped;
use crate::target::{Select, Target};
use sec_text::characters::{BAR, SLASH};
use waf_plain::{Bytes, NoMemory};

/// Puts a target list as it is written, parted by bars.
#[tactic(auto, unfolding(crate::specs::PrintTargets::targets_text))]
pub(crate) fn put_targets(targets: &[Target], out: &mut Bytes) -> Result<(), NoMemory>
    ensures { OnOk result (out.new ≡ out.old ++ targets_text targets.now) }
{
    let Some((first, others)) = targets.split_first() else {
        return Ok(());
    };
    put_target(first, out)?;
    for target in others {
        put_further_target(target, out)?;
    }
    Ok(())
}

fn put_further_target(target: &Target, out: &mut Bytes) -> Result<(), NoMemory>
    ensures { OnOk result (out.new ≡ out.old ++ BAR ∷ target_text target.now) }
{
    out.push(BAR)?;
    put_target(target, out)
}

fn put_target(target: &Target, out: &mut Bytes) -> Result<(), NoMemory>
    ensures { OnOk result (out.new ≡ out.old ++ target_text target.now) }
{
    out.append(mark_text(target.exclude, target.count))?;
    out.append(target.var.name())?;
    put_select(&target.select, out)
}

fn mark_text(exclude: bool, count: bool) -> &'static [u8]
    ensures { result.now ≡ mark_text exclude count }
{
    match (exclude, count) {
        (true, _) => b"!",
        (false, true) => b"&",
        (false, false) => b"",
    }
}

fn put_select(select: &Select, out: &mut Bytes) -> Result<(), NoMemory>
    ensures { OnOk result (out.new ≡ out.old ++ select_text select.now) }
{
    match select {
        Select::All => Ok(()),
        Select::Name(name) => put_name(name.as_slice(), out),
        Select::Pattern(pattern) => put_pattern(pattern.as_slice(), out),
    }
}

fn put_name(name: &[u8], out: &mut Bytes) -> Result<(), NoMemory>
    ensures { OnOk result (out.new ≡ out.old ++ select_text (Select.Name name.now)) }
{
    out.append(b":")?;
    out.append(name)
}

fn put_pattern(pattern: &[u8], out: &mut Bytes) -> Result<(), NoMemory>
    ensures { OnOk result (out.new ≡ out.old ++ select_text (Select.Pattern pattern.now)) }
{
    out.append(b":/")?;
    put_escaped(SLASH, pattern, out)?;
    out.append(b"/")
}
