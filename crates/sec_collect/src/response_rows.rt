ghost use Rattle.std.specs.Prelude.{◌≡◌, IfOk, None, Some};
ghost use Rattle.sec_collect.specs.Kept.{response_rows};

use crate::AddedResponse;
use crate::request::{content_type, digits, length_text, protocol_text};
use std::alloc::Global;
use waf_plain::{Bytes, NoMemory, Seq};
use web_parts::{NameValue, header_rows};

/// What is kept of a response for the rows of its variables, and nothing before there is one.
#[derive(Drop)]
pub(crate) struct ResponseRows {
    pub(crate) status: Option<Bytes>,
    pub(crate) protocol: Option<Bytes>,
    pub(crate) length: Option<Bytes>,
    pub(crate) media_type: Option<Bytes>,
    pub(crate) headers: Seq<NameValue>,
}

impl ResponseRows {
    /// That of no response. It takes no memory.
    pub(crate) fn none(alloc: Global) -> ResponseRows
        ensures { result ≡ response_rows None }
    {
        ResponseRows {
            status: None,
            protocol: None,
            length: None,
            media_type: None,
            headers: Seq::new(alloc),
        }
    }

    /// That of a response.
    pub(crate) fn of_added(alloc: Global, added: &AddedResponse) -> Result<ResponseRows, NoMemory>
        ensures { IfOk result (λ rows. rows ≡ response_rows (Some added.now)) }
    {
        let response = &added.response;
        let status = digits(alloc, u64::from(response.status))?;
        let protocol = protocol_text(alloc, response.version.as_slice())?;
        let length = length_text(alloc, response.body.as_slice())?;
        let headers = header_rows(alloc, response.headers.as_slice())?;
        let media_type = Bytes::copy(alloc, content_type(headers.as_slice()))?;
        Ok(ResponseRows {
            status: Some(status),
            protocol: Some(protocol),
            length: Some(length),
            media_type: Some(media_type),
            headers,
        })
    }
}
