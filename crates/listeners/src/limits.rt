//! How much there may be.

/// How many sockets may be open.
pub const MOST_SOCKETS: usize = 64;

/// How many bytes of messages may wait for a socket, the memory that it has for them.
pub const MOST_QUEUED: usize = 8192;
