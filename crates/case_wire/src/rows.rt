// The rows of header fields, cookies and arguments, and the texts of addresses.

use case_text::Answer;
use std::alloc::Global;
use waf_plain::{Bytes, NoMemory, Seq};
use web_parts::{Address, NameValue, address_text, argument_rows, cookie_rows, header_rows};

/// `headers TEXT`, `cookies TEXT`, of header lines, or `arguments TEXT`: the rows, each as its name and
/// its value. `address BYTES`: its text, of 4 bytes, of 16, or of none.
pub fn answer(alloc: Global, given: &[Bytes], out: &mut Answer) {
    let [call, text] = given else {
        return out.malformed();
    };
    let text = text.as_slice();
    match call.as_slice() {
        b"headers" => put_rows(header_rows(alloc, text), out),
        b"cookies" => put_rows(cookies(alloc, text), out),
        b"arguments" => put_rows(argument_rows(alloc, text), out),
        b"address" => address(alloc, text, out),
        _ => out.malformed(),
    }
}

fn put_rows(rows: Result<Seq<NameValue>, NoMemory>, out: &mut Answer) {
    let Ok(rows) = rows else {
        return out.no_memory();
    };
    for row in rows.as_slice() {
        out.quoted(row.name.as_slice());
        out.quoted(row.value.as_slice());
    }
}

fn cookies(alloc: Global, text: &[u8]) -> Result<Seq<NameValue>, NoMemory> {
    let headers = header_rows(alloc, text)?;
    cookie_rows(alloc, &headers)
}

fn address(alloc: Global, octets: &[u8], out: &mut Answer) {
    match address_of(octets) {
        Some(address) => put_address(alloc, address, out),
        None => out.malformed(),
    }
}

fn put_address(alloc: Global, address: Address, out: &mut Answer) {
    match address_text(alloc, &address) {
        Ok(text) => out.quoted(text.as_slice()),
        Err(NoMemory) => out.no_memory(),
    }
}

fn address_of(octets: &[u8]) -> Option<Address> {
    match octets {
        [] => Some(Address::None),
        [a, b, c, d] => Some(Address::V4([*a, *b, *c, *d])),
        [a, b, c, d, e, f, g, h, i, j, k, l, m, n, o, p] => Some(Address::V6([
            *a, *b, *c, *d, *e, *f, *g, *h, *i, *j, *k, *l, *m, *n, *o, *p,
        ])),
        _ => None,
    }
}
