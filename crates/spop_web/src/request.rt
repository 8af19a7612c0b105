ghost use Rattle.spop_web.specs.Request.{IsAsked};

use crate::reader::Reader;
use crate::value::or_empty;
use crate::{Arg, ArgFault};
use spop_data::Pair;
use std::alloc::Global;
use waf_plain::{Bytes, Seq};
use web_parts::Request;

/// A request, and the application that it is asked for.
#[derive(Debug, PartialEq, Drop)]
pub struct Asked {
    /// The name of the application, empty where none was given.
    pub app: Bytes,
    pub request: Request,
}

/// The request that the arguments tell. Of two arguments of one name the later wins, NULL counts as
/// absent, and others are passed over. Texts are STRING or BINARY, numbers of any integer type, and
/// addresses IPV4 or IPV6; what is absent is empty, but for `id` and `method`, which are wanted.
/// `id` has 1 to 256 bytes, `app` at most 256, `method` at least 1, and a port is at most 65535.
/// `Bad` names the first argument that is not so, in the order of `Arg`.
pub fn request_of(alloc: Global, args: Seq<Pair>) -> Result<Asked, ArgFault>
    ensures { IsAsked args result }
{
    let mut reader = Reader::new(alloc, args);
    let id = reader.identifier();
    let app = reader.application();
    let src = reader.address(Arg::SrcIp);
    let dst = reader.address(Arg::DstIp);
    let src_port = reader.port(Arg::SrcPort);
    let dst_port = reader.port(Arg::DstPort);
    let method = reader.method();
    let path = reader.text(Arg::Path);
    let query = reader.text(Arg::Query);
    let version = reader.text(Arg::Version);
    let headers = reader.text(Arg::Headers);
    let body = reader.text(Arg::Body);
    if let Some(arg) = reader.bad {
        return Err(ArgFault::Bad { arg, id });
    }
    let request = Request {
        id: or_empty(alloc, id),
        src,
        src_port,
        dst,
        dst_port,
        method,
        path,
        query,
        version,
        headers,
        body,
    };
    Ok(Asked { app, request })
}
