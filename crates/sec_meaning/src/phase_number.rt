//! The numbers of the phases (ModSecurity reference manual, "Processing Phases").

/// The first.
pub const REQUEST_HEADERS: u8 = 1;
/// From here on the request's body is open, where it is read.
pub const REQUEST_BODY: u8 = 2;
/// From here on the response is there.
pub const RESPONSE_HEADERS: u8 = 3;
/// The last in which a rule may interrupt.
pub const RESPONSE_BODY: u8 = 4;
/// It runs last in every case.
pub const LOGGING: u8 = 5;
