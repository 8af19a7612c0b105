ghost use Rattle.std.specs.Prelude.{◌≡◌, IfOk};

use std::alloc::Global;
use waf_plain::{Bytes, NoMemory};

/// A name and its value, as of a header field, a cookie or an argument.
#[derive(Clone, Debug, PartialEq, Drop)]
pub struct NameValue {
    pub name: Bytes,
    pub value: Bytes,
}

// The row of a name and a value that stand in another text.
pub(crate) fn row_of(alloc: Global, name: &[u8], value: &[u8]) -> Result<NameValue, NoMemory>
    ensures { IfOk result (λ row. row ≡ record { name = name.now; value = value.now }) }
{
    let name = Bytes::copy(alloc, name)?;
    let value = Bytes::copy(alloc, value)?;
    Ok(NameValue { name, value })
}
