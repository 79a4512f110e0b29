use crate::kind::Kind;
use mask_table::Prefix;
use sock_addrs::Inet;

/// An interface address of a route: an IPv4 address of an interface by its number, or the link-layer address of an
/// interface by the interface's number.
#[derive(Clone, Copy, Debug, PartialEq, Eq)]
pub enum IfaRef {
    Inet(u16),
    Link(u16),
}

/// What is known of an interface's IPv4 address.
#[derive(Clone, Copy, Debug, PartialEq, Eq)]
pub struct Facts {
    /// The kind of its interface.
    pub kind: Kind,
    /// The length of its network.
    pub prefix: Prefix,
    /// Whether its route is cloning.
    pub cloning: bool,
    /// Whether its route was added.
    pub routed: bool,
    /// Its far address: the broadcast address on a broadcast interface, the address itself on loopback, and the other
    /// end's on a point-to-point interface.
    pub far: Inet,
}
