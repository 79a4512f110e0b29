//! The flags of a route by which a search among addresses goes, as <net/route.h> names them. Those of messages have
//! them too, with all others.

/// The destination is reached through a gateway.
pub const RTF_GATEWAY: u16 = 0x2;
/// The destination is one host.
pub const RTF_HOST: u16 = 0x4;
