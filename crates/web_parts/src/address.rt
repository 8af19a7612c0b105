ghost use Rattle.std.specs.Prelude.{◌≡◌, IfOk};
ghost use Rattle.web_parts.specs.AddressText.{text_of};

use std::alloc::Global;
use std::net::{Ipv4Addr, Ipv6Addr};
use waf_plain::{Bytes, NoMemory};

/// An address of the internet protocol, in network order, or none.
#[derive(Clone, Copy, Debug, PartialEq, Eq)]
pub enum Address {
    None,
    V4([u8; 4]),
    V6([u8; 16]),
}

/// The address as text: four decimal numbers with dots, or by RFC 5952, where an IPv4-mapped address
/// ends in its IPv4 address. No address gives the empty text.
pub fn address_text(alloc: Global, address: &Address) -> Result<Bytes, NoMemory>
    ensures { IfOk result (λ text. text ≡ text_of address.now) }
{
    match address {
        Address::None => Ok(Bytes::new(alloc)),
        Address::V4(octets) => {
            let text = Ipv4Addr::from_octets(*octets).to_string(alloc)?;
            Ok(Bytes::from_vec(text.into_bytes()))
        }
        Address::V6(octets) => {
            let text = Ipv6Addr::from_octets(*octets).to_string(alloc)?;
            Ok(Bytes::from_vec(text.into_bytes()))
        }
    }
}
