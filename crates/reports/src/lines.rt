ghost use Rattle.std.specs.Prelude.{◌≡◌, ◌++◌, codes, decimal, IfOk, OnOk};
ghost use Rattle.reports.specs.FaultLines.{after, compile_line, fault_line, line_of, memory_line, place};

use agent_conf::LoadFault;
use sec_compile::CompileFault;
use std::alloc::Global;
use waf_plain::{Bytes, NoMemory};

/// The line of a fault in what is loaded under a name.
pub fn fault_line(alloc: Global, name: &[u8], fault: &LoadFault) -> Result<Bytes, NoMemory>
    ensures { IfOk result (λ line. line ≡ fault_line name.now fault.now) }
{
    match fault {
        LoadFault::NoFile => line_of(alloc, name, 0, b"NoFile", b""),
        LoadFault::TooLong => line_of(alloc, name, 0, b"TooLong", b""),
        LoadFault::ReadFault => line_of(alloc, name, 0, b"ReadFault", b""),
        LoadFault::Conf(fault) => line_of(alloc, name, 0, fault.kind(), fault.word()),
        LoadFault::Rules(fault) => {
            let file = fault.file.as_slice();
            line_of(
                alloc,
                file,
                fault.line,
                fault.kind.name(),
                fault.word.as_slice(),
            )
        }
        LoadFault::Compile(fault) => compile_line(alloc, fault),
        LoadFault::NoMemory => memory_line(alloc),
    }
}

/// A rule with a pattern that has no reading is told by its identifier.
fn compile_line(alloc: Global, fault: &CompileFault) -> Result<Bytes, NoMemory>
    ensures { IfOk result (λ line. line ≡ compile_line fault.now) }
{
    match fault {
        CompileFault::BadPattern { place, id } => {
            let mut buffer = itoa::Buffer::new();
            let number = buffer.format(*id).as_bytes();
            line_of(
                alloc,
                place.file.as_slice(),
                place.line,
                b"BadPattern",
                number,
            )
        }
        CompileFault::NoMemory => memory_line(alloc),
    }
}

fn memory_line(alloc: Global) -> Result<Bytes, NoMemory>
    ensures { IfOk result (λ line. line ≡ memory_line) }
{
    Bytes::copy(alloc, b"NoMemory\n")
}

/// A file, its line where that is not 0, a kind, and the word where there is one.
fn line_of(
    alloc: Global,
    file: &[u8],
    number: u32,
    kind: &[u8],
    word: &[u8],
) -> Result<Bytes, NoMemory>
    ensures { IfOk result (λ line. line ≡ line_of file.now number kind.now word.now) }
{
    let mut line = place(alloc, file, number)?;
    line.append(b": ")?;
    line.append(kind)?;
    push_word(&mut line, word)?;
    line.append(b"\n")?;
    Ok(line)
}

/// A file, and a line of it where that is not 0.
fn place(alloc: Global, file: &[u8], line: u32) -> Result<Bytes, NoMemory>
    ensures { IfOk result (λ text. text ≡ place file.now line) }
{
    let mut text = Bytes::copy(alloc, file)?;
    if line != 0 {
        push_number(&mut text, line)?;
    }
    Ok(text)
}

fn push_number(text: &mut Bytes, number: u32) -> Result<(), NoMemory>
    ensures { OnOk result (text.new ≡ text.old ++ codes ":" ++ decimal number) }
{
    text.append(b":")?;
    let mut buffer = itoa::Buffer::new();
    text.append(buffer.format(number).as_bytes())
}

fn push_word(line: &mut Bytes, word: &[u8]) -> Result<(), NoMemory>
    ensures { OnOk result (line.new ≡ line.old ++ after (codes " ") word.now) }
{
    if word.len() == 0 {
        return Ok(());
    }
    line.append(b" ")?;
    line.append(word)
}
