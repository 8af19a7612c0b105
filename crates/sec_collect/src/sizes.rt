ghost use Rattle.std.specs.Prelude.{◌≡◌, ◌<◌, ◌+◌, ◌^◌, length};
ghost use Rattle.sec_collect.specs.Row.{is_named, size_of};
ghost use Rattle.sec_collect.specs.Variables.{without};

use web_parts::NameValue;

// A number of 64 bits for each row: so the sums below fit into 128 bits.
fn row_size(name: &[u8], value: &[u8]) -> u128
    ensures size { result ≡ length name.now + length value.now }
    ensures small { result < 2 ^ 64 }
{
    name.len() as u128 + value.len() as u128
}

/// How many bytes the names and values have together.
pub(crate) fn size_of(rows: &[NameValue]) -> u128
    ensures size { result ≡ size_of rows.now }
    ensures small { result < 2 ^ 127 }
{
    let mut sum = 0;
    for row in rows {
        sum += row_size(row.name.as_slice(), row.value.as_slice());
    }
    sum
}

/// The same of the rows that have another name.
pub(crate) fn others_size(rows: &[NameValue], name: &[u8]) -> u128
    ensures size { result ≡ size_of (without name.now rows.now) }
    ensures small { result < 2 ^ 127 }
{
    let mut sum = 0;
    for row in rows {
        if !is_named(name, row) {
            sum += row_size(row.name.as_slice(), row.value.as_slice());
        }
    }
    sum
}

/// Whether it has this name, without regard to the case of ASCII letters.
pub(crate) fn is_named(name: &[u8], row: &NameValue) -> bool
    ensures { result ≡ is_named name.now row.now }
{
    name.eq_ignore_ascii_case(row.name.as_slice())
}
