ghost use Rattle.std.specs.Prelude.{◌≡◌, IfOk, None, Some};
ghost use Rattle.web_parts.specs.Arguments.{argument_rows};
ghost use Rattle.sec_collect.specs.Kept.{body_rows};

use crate::OpenedBody;
use crate::body::{left_of, posted, sizes_text};
use crate::request::length_text;
use std::alloc::Global;
use waf_plain::{Bytes, NoMemory, Seq};
use web_parts::{NameValue, Request};

/// What is kept of a request's body for the rows of its variables.
#[derive(Drop)]
pub(crate) struct BodyRows {
    pub(crate) posted: Seq<NameValue>,
    pub(crate) length: Option<Bytes>,
    /// How many bytes the arguments have together, those of the query among them, in digits.
    pub(crate) arguments_size: Bytes,
}

impl BodyRows {
    /// That of a body which is not opened, beside these arguments of the query.
    pub(crate) fn unopened(
        alloc: Global,
        request: &Request,
        query_arguments: &Seq<NameValue>,
    ) -> Result<BodyRows, NoMemory>
        requires { query_arguments.now ≡ argument_rows request.now.query }
        ensures { IfOk result (λ rows. rows ≡ body_rows request.now None) }
    {
        let posted = Seq::new(alloc);
        let arguments_size = sizes_text(alloc, query_arguments, &posted)?;
        Ok(BodyRows {
            posted,
            length: None,
            arguments_size,
        })
    }

    /// That of the opened body.
    pub(crate) fn of_opened(
        alloc: Global,
        request: &Request,
        query_arguments: &Seq<NameValue>,
        opened: OpenedBody,
    ) -> Result<BodyRows, NoMemory>
        requires { query_arguments.now ≡ argument_rows request.now.query }
        ensures { IfOk result (λ rows. rows ≡ body_rows request.now (Some opened)) }
    {
        let body = request.body.as_slice();
        let posted = posted(alloc, body, opened)?;
        let length = length_text(alloc, left_of(body, opened))?;
        let arguments_size = sizes_text(alloc, query_arguments, &posted)?;
        Ok(BodyRows {
            posted,
            length: Some(length),
            arguments_size,
        })
    }
}
