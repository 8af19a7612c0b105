ghost use Rattle.std.specs.Prelude.{◌≡◌, ◌++◌, IfOk, OnOk};
ghost use Rattle.web_parts.specs.Cookies.{cookie_rows, cookies_of, is_cookie, rows_of_header, rows_of_piece};

use crate::NameValue;
use crate::pieces::{cut, trimmed};
use crate::row::row_of;
use std::alloc::Global;
use waf_plain::{NoMemory, Seq};

const SEMICOLON: u8 = b';';

const EQUALS: u8 = b'=';

/// A row for each cookie of the header fields named `cookie`, in whatever case, in order. Cookies are
/// parted by `;`, and blanks around them are dropped; the name of one stands before its first `=`, and
/// its value after it (RFC 6265, 4.2.1). One without `=` is a name with the empty value.
pub fn cookie_rows(alloc: Global, headers: &Seq<NameValue>) -> Result<Seq<NameValue>, NoMemory>
    ensures { IfOk result (λ rows. rows ≡ cookie_rows headers.now) }
{
    let mut rows = Seq::new(alloc);
    for header in headers.as_slice() {
        add_header(alloc, &mut rows, header)?;
    }
    Ok(rows)
}

// Adds the cookies of a header field, if it has any.
fn add_header(alloc: Global, rows: &mut Seq<NameValue>, header: &NameValue) -> Result<(), NoMemory>
    ensures { OnOk result (rows.new ≡ rows.old ++ rows_of_header header.now) }
{
    if is_cookie(header.name.as_slice()) {
        add_cookies(alloc, rows, header.value.as_slice())
    } else {
        Ok(())
    }
}

fn is_cookie(name: &[u8]) -> bool
    ensures { result ≡ is_cookie name.now }
{
    name.eq_ignore_ascii_case(b"cookie")
}

// Adds the cookies of a value.
fn add_cookies(alloc: Global, rows: &mut Seq<NameValue>, value: &[u8]) -> Result<(), NoMemory>
    ensures { OnOk result (rows.new ≡ rows.old ++ cookies_of value.now) }
{
    let mut rest = Some(value);
    while let Some(text) = rest {
        let (piece, behind) = cut(text, SEMICOLON);
        add_cookie(alloc, rows, trimmed(piece))?;
        rest = behind;
    }
    Ok(())
}

// Adds the cookie of a piece, if it has one.
fn add_cookie(alloc: Global, rows: &mut Seq<NameValue>, piece: &[u8]) -> Result<(), NoMemory>
    ensures { OnOk result (rows.new ≡ rows.old ++ rows_of_piece piece.now) }
{
    if piece.is_empty() {
        return Ok(());
    }
    let (name, value) = cut(piece, EQUALS);
    rows.push(row_of(alloc, name, value.unwrap_or(b""))?)
}
