ghost use Rattle.std.specs.Prelude.{◌≡◌, IfOk};
ghost use Rattle.sec_collect.specs.Kept.{request_rows};

use crate::address_texts::AddressTexts;
use crate::body::is_form;
use crate::line_texts::LineTexts;
use crate::request::server_name;
use std::alloc::Global;
use waf_plain::{Bytes, NoMemory, Seq};
use web_parts::{NameValue, Request, argument_rows, cookie_rows, header_rows};

/// What is kept of a request for the rows of its variables, but for those of its body.
#[derive(Drop)]
pub(crate) struct RequestRows {
    pub(crate) headers: Seq<NameValue>,
    pub(crate) cookies: Seq<NameValue>,
    pub(crate) query_arguments: Seq<NameValue>,
    pub(crate) is_form: bool,
    pub(crate) server_name: Bytes,
    pub(crate) addresses: AddressTexts,
    pub(crate) line: LineTexts,
}

impl RequestRows {
    /// That of a request.
    pub(crate) fn new(alloc: Global, request: &Request) -> Result<RequestRows, NoMemory>
        ensures { IfOk result (λ rows. rows ≡ request_rows request.now) }
    {
        let headers = header_rows(alloc, request.headers.as_slice())?;
        let cookies = cookie_rows(alloc, &headers)?;
        let query_arguments = argument_rows(alloc, request.query.as_slice())?;
        let server_name = Bytes::copy(alloc, server_name(headers.as_slice()))?;
        let addresses = AddressTexts::new(alloc, request)?;
        let line = LineTexts::new(alloc, request)?;
        let is_form = is_form(headers.as_slice());
        Ok(RequestRows {
            headers,
            cookies,
            query_arguments,
            is_form,
            server_name,
            addresses,
            line,
        })
    }
}
