ghost use Rattle.std.specs.Prelude.{◌≡◌, ◌++◌, IfOk, OnOk};
ghost use Rattle.std.specs.Option.{option_map};
ghost use Rattle.web_parts.specs.Headers.{header_rows, header_of, rows_of_line, without_return};

use crate::NameValue;
use crate::pieces::{cut, trimmed};
use crate::row::row_of;
use std::alloc::Global;
use waf_plain::{NoMemory, Seq};

const LF: u8 = b'\n';

const CR: u8 = b'\r';

const COLON: u8 = b':';

/// A row for each header field of a text, in order. A line ends at LF or CR LF; its name stands before
/// the first colon and its value after it, both without the blanks around them (RFC 9112, 5). A line
/// without a colon or without a name is passed over, and no other line is refused.
pub fn header_rows(alloc: Global, lines: &[u8]) -> Result<Seq<NameValue>, NoMemory>
    ensures { IfOk result (λ rows. rows ≡ header_rows lines.now) }
{
    let mut rows = Seq::new(alloc);
    let mut rest = Some(lines);
    while let Some(text) = rest {
        let (line, behind) = cut(text, LF);
        add_row(alloc, &mut rows, line)?;
        rest = behind;
    }
    Ok(rows)
}

// Adds the row of a line, if it has one.
fn add_row(alloc: Global, rows: &mut Seq<NameValue>, line: &[u8]) -> Result<(), NoMemory>
    ensures { OnOk result (rows.new ≡ rows.old ++ rows_of_line line.now) }
{
    match header_of(without_return(line)) {
        Some((name, value)) => rows.push(row_of(alloc, name, value)?),
        None => Ok(()),
    }
}

// The name and the value of a line, if it is a header field.
fn header_of(line: &[u8]) -> Option<(&[u8], &[u8])>
    ensures { option_map (λ row. record { name = row.0.now; value = row.1.now }) result ≡ header_of line.now }
{
    let (name, Some(value)) = cut(line, COLON) else {
        return None;
    };
    let name = trimmed(name);
    if name.is_empty() {
        return None;
    }
    Some((name, trimmed(value)))
}

// The line without one CR at its end.
fn without_return(line: &[u8]) -> &[u8]
    ensures { result.now ≡ without_return line.now }
{
    match line.split_last() {
        Some((last, front)) => { if *last == CR { front } else { line } }
        None => line,
    }
}
