/// The name of the message that tells a request; HAProxy's configuration sends it so.
pub const REQUEST_MESSAGE: &[u8] = b"coraza-req";

/// The name of the message that tells a response.
pub const RESPONSE_MESSAGE: &[u8] = b"coraza-res";
