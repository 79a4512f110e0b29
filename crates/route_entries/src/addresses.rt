//! The addresses of a route in a message.
ghost use Rattle.std.specs.Prelude.{◌≡◌, ◌≤◌, length, option_map};
ghost use Rattle.sock_addrs.specs.Sockaddrs.{mask_sockaddr};
ghost use Rattle.route_msgs.specs.AddrInfo.{address_bytes};
ghost use Rattle.route_entries.specs.Addresses.{destination_addresses, route_addresses};

use crate::Route;
use mask_table::{Prefix, Rank};
use route_msgs::{AddrInfo, Sockaddr};
use sock_addrs::Inet;

// Both are inlined, as what writes them into a message is: only the addresses that are there are made then.

/// A mask, where there is one.
fn mask(mask: Option<Prefix>) -> Option<Sockaddr>
    ensures { result ≡ option_map mask_sockaddr mask }
{
    match mask {
        Some(prefix) => Some(Sockaddr::mask(prefix.bits())),
        None => None,
    }
}

/// What a message says of where a route leads: its key as the destination, its gateway, and its mask where it has one.
#[inline(always)]
pub fn destination_of(key: Inet, rank: Rank, route: &Route) -> AddrInfo
    ensures addresses { result ≡ destination_addresses key rank route.now }
    ensures size { length (address_bytes result) ≤ 56 }
{
    AddrInfo {
        dst: Some(Sockaddr::inet(key)),
        gateway: Some(Sockaddr::gate(route.gateway)),
        netmask: mask(rank.mask()),
        ..AddrInfo::default()
    }
}

/// What a message that shows a whole route says of it: where it leads, and the mask of its clones where it has one.
#[inline(always)]
pub fn addresses_of(key: Inet, rank: Rank, route: &Route) -> AddrInfo
    ensures addresses { result ≡ route_addresses key rank route.now }
    ensures size { length (address_bytes result) ≤ 64 }
{
    AddrInfo {
        genmask: mask(route.genmask),
        ..destination_of(key, rank, route)
    }
}
