use case_text::Answer;
use spop_data::{Data, Pair};

/// Adds the type of a value, and the value where the type has more than one.
pub fn put_data(value: &Data, out: &mut Answer) {
    match value {
        Data::Null => out.plain(b"null"),
        Data::Bool(value) => {
            out.plain(b"bool");
            out.choice(*value, b"true", b"false")
        }
        Data::Int32(number) => put_signed(b"int32", i64::from(*number), out),
        Data::Uint32(number) => out.named_number(b"uint32", u64::from(*number)),
        Data::Int64(number) => put_signed(b"int64", *number, out),
        Data::Uint64(number) => out.named_number(b"uint64", *number),
        Data::Ipv4(address) => out.named(b"ipv4", address),
        Data::Ipv6(address) => out.named(b"ipv6", address),
        Data::Text(text) => out.named(b"text", text.as_slice()),
        Data::Binary(text) => out.named(b"binary", text.as_slice()),
    }
}

/// Adds the name and the value.
pub fn put_pair(pair: &Pair, out: &mut Answer) {
    out.quoted(pair.name.as_slice());
    put_data(&pair.value, out)
}

fn put_signed(kind: &[u8], number: i64, out: &mut Answer) {
    out.plain(kind);
    out.signed(number)
}
