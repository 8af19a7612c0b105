use crate::Address;
use waf_plain::Bytes;

/// A request of HTTP (RFC 9110). A text that was not told is empty.
#[derive(Clone, Debug, PartialEq, Drop)]
pub struct Request {
    /// What names the request and its response, while they are handled.
    pub id: Bytes,
    pub src: Address,
    pub src_port: Option<u16>,
    pub dst: Address,
    pub dst_port: Option<u16>,
    pub method: Bytes,
    /// The path as it was sent, without the query.
    pub path: Bytes,
    /// What follows the first `?` of the target.
    pub query: Bytes,
    /// The number after `HTTP/`, as `1.1`.
    pub version: Bytes,
    /// A line for each field, as `header_rows` reads them.
    pub headers: Bytes,
    pub body: Bytes,
}

/// A response of HTTP (RFC 9110). A text that was not told is empty.
#[derive(Clone, Debug, PartialEq, Drop)]
pub struct Response {
    /// The number after `HTTP/`, as `1.1`.
    pub version: Bytes,
    /// The status code, of three digits.
    pub status: u32,
    /// A line for each field, as `header_rows` reads them.
    pub headers: Bytes,
    pub body: Bytes,
}
