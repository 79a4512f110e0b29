//! The bits of a message's addrs field, one for each address that may follow the header, as <net/route.h> names them.

/// The destination.
pub const RTA_DST: u32 = 0x1;
/// The gateway.
pub const RTA_GATEWAY: u32 = 0x2;
/// The mask of the destination.
pub const RTA_NETMASK: u32 = 0x4;
/// The mask of the routes that are cloned from this one.
pub const RTA_GENMASK: u32 = 0x8;
/// The interface, by its link-layer address or one of its addresses.
pub const RTA_IFP: u32 = 0x10;
/// The address of the interface.
pub const RTA_IFA: u32 = 0x20;
/// Who told of a redirect.
pub const RTA_AUTHOR: u32 = 0x40;
/// The broadcast address, or the far end of a point-to-point link.
pub const RTA_BRD: u32 = 0x80;
