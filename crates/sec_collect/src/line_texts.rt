ghost use Rattle.std.specs.Prelude.{◌≡◌, IfOk};
ghost use Rattle.sec_collect.specs.Kept.{line_texts};

use crate::request::{basename, line_text, protocol_text, uri_text};
use std::alloc::Global;
use waf_plain::{Bytes, NoMemory};
use web_parts::Request;

/// The request line, and the texts of the variables of its parts that don't stand in the request as
/// they are.
#[derive(Drop)]
pub(crate) struct LineTexts {
    pub(crate) uri: Bytes,
    pub(crate) basename: Bytes,
    pub(crate) protocol: Bytes,
    pub(crate) line: Bytes,
}

impl LineTexts {
    /// Those of a request.
    pub(crate) fn new(alloc: Global, request: &Request) -> Result<LineTexts, NoMemory>
        ensures { IfOk result (λ texts. texts ≡ line_texts request.now) }
    {
        let uri = uri_text(alloc, request.path.as_slice(), request.query.as_slice())?;
        let basename = Bytes::copy(alloc, basename(request.path.as_slice()))?;
        let protocol = protocol_text(alloc, request.version.as_slice())?;
        let line = line_text(alloc, request, &uri, &protocol)?;
        Ok(LineTexts {
            uri,
            basename,
            protocol,
            line,
        })
    }
}
