//! The addresses of a message by their names, and the bits and bytes that they take in it.
ghost use Rattle.std.specs.Prelude.{◌≡◌, ◌+◌, ◌≤◌, ◌++◌, length};

use crate::bits::{
    RTA_AUTHOR, RTA_BRD, RTA_DST, RTA_GATEWAY, RTA_GENMASK, RTA_IFA, RTA_IFP, RTA_NETMASK,
};
use crate::{MOST_MADE, Message, Sockaddr};

/// The addresses of a message, by their names. A message's addrs field and its length follow from them.
#[derive(Clone, Copy, Debug, Default, PartialEq, Eq)]
pub struct AddrInfo {
    /// The destination.
    pub dst: Option<Sockaddr>,
    /// The gateway.
    pub gateway: Option<Sockaddr>,
    /// The mask of the destination.
    pub netmask: Option<Sockaddr>,
    /// The mask of the routes that are cloned from this one.
    pub genmask: Option<Sockaddr>,
    /// The interface.
    pub ifp: Option<Sockaddr>,
    /// The address of the interface.
    pub ifa: Option<Sockaddr>,
    /// Who told of a redirect.
    pub author: Option<Sockaddr>,
    /// The broadcast address, or the far end of a point-to-point link.
    pub brd: Option<Sockaddr>,
}

impl AddrInfo {
    ghost use Rattle.route_msgs.specs.AddrInfo.{address_bytes, addrs_of};

    /// The addrs field of a message that has these addresses.
    pub(crate) fn addrs(&self) -> u32
        ensures { result ≡ addrs_of self.now }
    {
        bit(&self.dst, RTA_DST)
            + bit(&self.gateway, RTA_GATEWAY)
            + bit(&self.netmask, RTA_NETMASK)
            + bit(&self.genmask, RTA_GENMASK)
            + bit(&self.ifp, RTA_IFP)
            + bit(&self.ifa, RTA_IFA)
            + bit(&self.author, RTA_AUTHOR)
            + bit(&self.brd, RTA_BRD)
    }

    /// How many bytes all of them take.
    #[tactic(auto, using(crate::proofs::AddressSizes::sizes_added))]
    pub(crate) fn size(&self) -> usize
        ensures size { result ≡ length (address_bytes self.now) }
        ensures most { result ≤ 256 }
    {
        size(&self.dst)
            + size(&self.gateway)
            + size(&self.netmask)
            + size(&self.genmask)
            + size(&self.ifp)
            + size(&self.ifa)
            + size(&self.author)
            + size(&self.brd)
    }

    /// Appends the bytes of all of them, one address after the other.
    #[inline(always)]
    #[tactic(auto, using(crate::proofs::AddressSizes::sizes_added))]
    pub(crate) fn put(&self, message: &mut Message)
        requires { length message.old.items + length (address_bytes self.now) ≤ MOST_MADE }
        ensures { message.new.items ≡ message.old.items ++ address_bytes self.now }
    {
        put(&self.dst, message);
        put(&self.gateway, message);
        put(&self.netmask, message);
        put(&self.genmask, message);
        put(&self.ifp, message);
        put(&self.ifa, message);
        put(&self.author, message);
        put(&self.brd, message);
    }
}

ghost use Rattle.route_msgs.specs.AddrInfo.{bit_of, bytes_or_none};

/// The bit where the address is there.
fn bit(sockaddr: &Option<Sockaddr>, bit: u32) -> u32
    ensures { result ≡ bit_of bit sockaddr.now }
{
    if sockaddr.is_some() { bit } else { 0 }
}

/// How many bytes the address takes, where it is there.
fn size(sockaddr: &Option<Sockaddr>) -> usize
    ensures size { result ≡ length (bytes_or_none sockaddr.now) }
    ensures most { result ≤ 32 }
{
    match sockaddr {
        Some(sockaddr) => sockaddr.as_bytes().len(),
        None => 0,
    }
}

/// Appends the bytes of the address, where it is there.
fn put(sockaddr: &Option<Sockaddr>, message: &mut Message)
    requires { length message.old.items + length (bytes_or_none sockaddr.now) ≤ MOST_MADE }
    ensures { message.new.items ≡ message.old.items ++ bytes_or_none sockaddr.now }
{
    if let Some(sockaddr) = sockaddr {
        message.try_extend_from_slice(sockaddr.as_bytes()).unwrap();
    }
}
