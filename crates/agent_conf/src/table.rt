ghost use Rattle.std.specs.Prelude.{◌≡◌, option_map};
ghost use Rattle.agent_conf.specs.Opening.{IsDocument};
ghost use Rattle.toml.specs.Data.{get_member};
ghost use Rattle.toml.specs.View.{items_view, table_view, view};
ghost use Rattle.agent_conf.specs.Document.{applications, document, tables};

use crate::ConfFault;
use std::alloc::Global;
use toml::{Table, Value};

// The document that a text is.
pub(crate) fn document(alloc: Global, text: &[u8]) -> Result<Table, ConfFault>
    ensures { IsDocument result (document text.now) }
{
    match toml::table_from_slice(alloc, text) {
        Ok(top) => Ok(top),
        Err(error) => Err(if error.is_memory() {
            ConfFault::NoMemory
        } else {
            ConfFault::Syntax
        }),
    }
}

// The value of a key.
pub(crate) fn value_at<'a>(table: &'a Table, key: &str) -> Option<&'a Value>
    ensures { option_map (λ v. view v.now) result ≡ get_member key.now (table_view table.now) }
{
    table.get(key)
}

// The members of `app`, none where it is no list.
pub(crate) fn members(top: &Table) -> &[Value]
    ensures { tables (items_view result.now) ≡ applications (table_view top.now) }
{
    match value_at(top, "app") {
        None => &[],
        Some(app) => match app.as_array() {
            None => &[],
            Some(items) => items.as_slice(),
        },
    }
}
