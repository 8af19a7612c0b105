//! The types of frames (SPOE.txt, 3.2.2).

/// Goes on with a frame that was begun. It is part of fragmentation, which is refused.
pub const UNSET: u8 = 0;
/// The client's HELLO, the first frame of a connection.
pub const HAPROXY_HELLO: u8 = 1;
/// HAProxy ends the connection.
pub const HAPROXY_DISCONNECT: u8 = 2;
/// Messages of a stream for the agent.
pub const NOTIFY: u8 = 3;
/// The agent's HELLO, which answers the client's.
pub const AGENT_HELLO: u8 = 101;
/// The agent ends the connection, and says why.
pub const AGENT_DISCONNECT: u8 = 102;
/// The actions that answer a NOTIFY.
pub const ACK: u8 = 103;
