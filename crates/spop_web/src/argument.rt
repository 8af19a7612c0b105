ghost use Rattle.std.specs.Prelude.{◌≡◌};

use waf_plain::{Bytes, NoMemory};

/// An argument of a message about a request or a response, in the order in which they are checked.
#[derive(Clone, Copy, Debug, PartialEq, Eq)]
pub enum Arg {
    Id,
    App,
    SrcIp,
    DstIp,
    SrcPort,
    DstPort,
    Method,
    Path,
    Query,
    Status,
    Version,
    Headers,
    Body,
}

impl Arg {
    ghost use Rattle.spop_web.specs.Names.{name_of};

    /// The name that it has in a message.
    pub fn name(self) -> &'static [u8]
        ensures { result.now ≡ name_of self }
    {
        match self {
            Arg::Id => b"id",
            Arg::App => b"app",
            Arg::SrcIp => b"src-ip",
            Arg::DstIp => b"dst-ip",
            Arg::SrcPort => b"src-port",
            Arg::DstPort => b"dst-port",
            Arg::Method => b"method",
            Arg::Path => b"path",
            Arg::Query => b"query",
            Arg::Status => b"status",
            Arg::Version => b"version",
            Arg::Headers => b"headers",
            Arg::Body => b"body",
        }
    }
}

/// Why the arguments tell no request or no response.
#[derive(Debug, PartialEq, Drop)]
pub enum ArgFault {
    /// The first argument that is bad, and the identifier where that is good.
    Bad { arg: Arg, id: Option<Bytes> },
    NoMemory,
}

impl From<NoMemory> for ArgFault {
    ghost use Rattle.std.specs.Prelude.{◌≡◌};
    ghost use Rattle.spop_web.specs.declared.argument.ArgFault.TheVariants.{NoMemory as no_memory};

    ghost from_gives = { λ _ e. e ≡ no_memory };

    fn from(_: NoMemory) -> ArgFault {
        ArgFault::NoMemory
    }
}
