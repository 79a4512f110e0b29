//! The flags of a route, as <net/route.h> names them, and of an interface's address, as <net/if.h> does.

use sock_addrs::flags;

/// The route is usable.
pub const RTF_UP: u16 = 0x1;
/// The destination is reached through a gateway.
pub const RTF_GATEWAY: u16 = flags::RTF_GATEWAY;
/// The destination is one host.
pub const RTF_HOST: u16 = flags::RTF_HOST;
/// Packets are refused.
pub const RTF_REJECT: u16 = 0x8;
/// A redirect made the route.
pub const RTF_DYNAMIC: u16 = 0x10;
/// A redirect changed the route.
pub const RTF_MODIFIED: u16 = 0x20;
/// The message was carried out.
pub const RTF_DONE: u16 = 0x40;
/// The mask is there.
pub const RTF_MASK: u16 = 0x80;
/// Using the route clones it.
pub const RTF_CLONING: u16 = 0x100;
/// A daemon outside resolves the route's clones.
pub const RTF_XRESOLVE: u16 = 0x200;
/// The route has a link-layer address.
pub const RTF_LLINFO: u16 = 0x400;
/// Added by hand.
pub const RTF_STATIC: u16 = 0x800;
/// Packets are dropped without a word.
pub const RTF_BLACKHOLE: u16 = 0x1000;
/// For a protocol's own use, the second such bit.
pub const RTF_PROTO2: u16 = 0x4000;
/// For a protocol's own use, the first such bit.
pub const RTF_PROTO1: u16 = 0x8000;

/// The route of an interface's address was added; of such an address's flags, among which may also be RTF_CLONING.
pub const IFA_ROUTE: u16 = 0x1;
