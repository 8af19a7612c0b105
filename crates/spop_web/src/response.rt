ghost use Rattle.spop_web.specs.Response.{IsTold};

use crate::reader::Reader;
use crate::value::or_empty;
use crate::{Arg, ArgFault};
use spop_data::Pair;
use std::alloc::Global;
use waf_plain::{Bytes, Seq};
use web_parts::Response;

/// A response, the identifier of its request, and the application that it is told to.
#[derive(Debug, PartialEq, Drop)]
pub struct Told {
    /// The name of the application, empty where none was given.
    pub app: Bytes,
    pub id: Bytes,
    pub response: Response,
}

/// The response that the arguments tell, by the rules of `request_of`. Here `id` and `status` are
/// wanted, and `status` is 100 to 999.
pub fn response_of(alloc: Global, args: Seq<Pair>) -> Result<Told, ArgFault>
    ensures { IsTold args result }
{
    let mut reader = Reader::new(alloc, args);
    let id = reader.identifier();
    let app = reader.application();
    let status = reader.status();
    let version = reader.text(Arg::Version);
    let headers = reader.text(Arg::Headers);
    let body = reader.text(Arg::Body);
    if let Some(arg) = reader.bad {
        return Err(ArgFault::Bad { arg, id });
    }
    let response = Response {
        version,
        status,
        headers,
        body,
    };
    Ok(Told {
        app,
        id: or_empty(alloc, id),
        response,
    })
}
