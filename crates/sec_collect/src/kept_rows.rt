ghost use Rattle.std.specs.Prelude.{◌≡◌, IfOk, None};
ghost use Rattle.sec_collect.specs.Kept.{kept_rows};

use crate::body_rows::BodyRows;
use crate::request_rows::RequestRows;
use crate::response_rows::ResponseRows;
use std::alloc::Global;
use waf_plain::NoMemory;
use web_parts::Request;

/// What is kept of a transaction, so that to borrow the rows of a variable takes neither memory nor a
/// pass over them.
#[derive(Drop)]
pub(crate) struct KeptRows {
    pub(crate) request: RequestRows,
    pub(crate) body: BodyRows,
    pub(crate) response: ResponseRows,
}

impl KeptRows {
    /// That of a request whose body is not opened yet.
    pub(crate) fn new(alloc: Global, request: &Request) -> Result<KeptRows, NoMemory>
        ensures { IfOk result (λ rows. rows ≡ kept_rows request.now None None) }
    {
        let rows = RequestRows::new(alloc, request)?;
        match BodyRows::unopened(alloc, request, &rows.query_arguments) {
            Ok(body) => Ok(KeptRows {
                request: rows,
                body,
                response: ResponseRows::none(alloc),
            }),
            Err(NoMemory) => {
                drop(rows);
                Err(NoMemory)
            }
        }
    }
}
