ghost use Rattle.std.specs.Prelude.{◌≡◌, ◌++◌, ◌≤◌, OnErr, OnOk, length};
ghost use Rattle.spop_varint.specs.Varint.{AppendsVarint, Spells};
ghost use Rattle.spop_varint.specs.Writing.{spelling};
ghost use Rattle.spop_varint.specs.declared.write.TheConstants.{MAX_LENGTH};

use arrayvec::ArrayVec;
use waf_plain::{Bytes, NoMemory};

/// As many bytes as spell the greatest numbers.
pub const MAX_LENGTH: usize = 10;

/// Appends the spelling of a number, which has `MAX_LENGTH` bytes at most. After an `Err` the bytes are as
/// before.
pub fn write_varint(value: u64, out: &mut Bytes) -> Result<(), NoMemory>
    ensures ok { OnOk result (AppendsVarint out.old out.new value) }
    ensures err { OnErr result (out.new ≡ out.old) }
    ensures exact { OnOk result (out.new ≡ out.old ++ spelling value) }
{
    out.append(spell(value).as_slice())
}

/// How many bytes spell a number, at least one. It takes no memory.
pub fn varint_length(value: u64) -> u64
    ensures exact { result ≡ length (spelling value) }
    ensures few { result ≤ MAX_LENGTH }
{
    spell(value).len() as u64
}

fn spell(value: u64) -> ArrayVec<u8, MAX_LENGTH>
    ensures { Spells result.items value }
{
    let mut out = ArrayVec::new();
    if value < 240 {
        out.push(value as u8);
        return out;
    }
    out.push((value % 16 + 240) as u8);
    let mut rest = (value - 240) / 16;
    while rest >= 128 {
        out.push((rest % 128 + 128) as u8);
        rest = (rest - 128) / 128;
    }
    out.push(rest as u8);
    out
}
