ghost use Rattle.std.specs.Prelude.{◌≡◌, IfOk};
ghost use Rattle.sec_collect.specs.Kept.{address_texts};

use crate::request::port_text;
use std::alloc::Global;
use waf_plain::{Bytes, NoMemory};
use web_parts::{Request, address_text};

/// The texts of the variables of both ends of a request's connection.
#[derive(Drop)]
pub(crate) struct AddressTexts {
    pub(crate) source: Bytes,
    pub(crate) source_port: Bytes,
    pub(crate) destination: Bytes,
    pub(crate) destination_port: Bytes,
}

impl AddressTexts {
    /// Those of a request.
    pub(crate) fn new(alloc: Global, request: &Request) -> Result<AddressTexts, NoMemory>
        ensures { IfOk result (λ texts. texts ≡ address_texts request.now) }
    {
        let source = address_text(alloc, &request.src)?;
        let source_port = port_text(alloc, request.src_port)?;
        let destination = address_text(alloc, &request.dst)?;
        let destination_port = port_text(alloc, request.dst_port)?;
        Ok(AddressTexts {
            source,
            source_port,
            destination,
            destination_port,
        })
    }
}
