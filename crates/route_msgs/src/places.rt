//! The places of the addresses that may follow a message's header, in the order of their bits, as <net/route.h> names
//! them.

/// The destination's.
pub const RTAX_DST: usize = 0;
/// The gateway's.
pub const RTAX_GATEWAY: usize = 1;
/// That of the mask of the destination.
pub const RTAX_NETMASK: usize = 2;
/// That of the mask of the routes that are cloned from this one.
pub const RTAX_GENMASK: usize = 3;
/// That of the address that names the interface.
pub const RTAX_IFP: usize = 4;
/// That of the address of the interface.
pub const RTAX_IFA: usize = 5;
/// That of the address of who told of a redirect.
pub const RTAX_AUTHOR: usize = 6;
/// That of the broadcast address, or of the far end of a point-to-point link.
pub const RTAX_BRD: usize = 7;
/// How many places there are.
pub const RTAX_MAX: usize = 8;
