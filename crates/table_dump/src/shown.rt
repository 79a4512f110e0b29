//! Which routes a dump shows, and the message of each.
ghost use Rattle.std.specs.Prelude.{◌≡◌, ◌+◌, ◌≤◌, ℕ, length, option_map, take};
ghost use Rattle.sock_addrs.specs.Sockaddrs.{mask_sockaddr};
ghost use Rattle.route_msgs.specs.AddrInfo.{address_bytes, addrs_of, bytes_or_none, gate_sockaddr};
ghost use Rattle.route_msgs.specs.Headers.{blank};
ghost use Rattle.route_msgs.specs.Pasted.{pasted};
ghost use Rattle.route_entries.specs.Addresses.{route_addresses};
ghost use Rattle.table_dump.specs.Dumps.{IsWhole, is_asked as is_asked_by, shown_as};

use mask_table::{Prefix, Rank};
use route_entries::PackedRoute;
use route_msgs::bits::{RTA_DST, RTA_GATEWAY, RTA_GENMASK, RTA_NETMASK};
use route_msgs::kinds::RTM_GET;
use route_msgs::{
    ADDRESSES_OFFSET, Header, Sockaddr, mask_bit, put_gate, put_inet, put_mask, put_route_header,
};
use sock_addrs::{Gate, Inet};

/// The most bytes of a message that shows a route: its header, an IPv4 address, a gateway and two masks.
pub(crate) const MOST_SHOWN: usize = ADDRESSES_OFFSET + 16 + 32 + 2 * 8;

/// Whether the route is asked for: each one is where there is no filter, and otherwise one that has a flag of the
/// filter.
pub(crate) fn is_asked(route: &PackedRoute, filter: Option<u32>) -> bool
    ensures { result ≡ is_asked_by filter route.now }
{
    match filter {
        Some(flags) => u32::from(route.flags()) & flags != 0,
        None => true,
    }
}

/// How many bytes the mask takes, where there is one.
#[tactic(auto, using(crate::proofs::Showing::mask_length))]
fn mask_size(mask: Option<Prefix>) -> usize
    ensures size { result ≡ length (bytes_or_none (option_map mask_sockaddr mask)) }
    ensures most { result ≤ 8 }
{
    match mask {
        Some(prefix) => { if prefix.bits() == 0 { 4 } else { 8 } }
        None => 0,
    }
}

/// How many bytes the gateway takes.
fn gate_size(gate: Gate) -> usize
    ensures size { result ≡ length (gate_sockaddr gate) }
    ensures most { result ≤ 32 }
{
    match gate {
        Gate::Inet(_) => 16,
        Gate::Link(link) => Sockaddr::link(link).as_bytes().len(),
    }
}

/// How long the message is that shows a route, of whatever key and of the interface with any index. It is counted by
/// its parts, since to make the addresses takes longer.
pub(crate) fn shown_size(rank: Rank, route: &PackedRoute) -> usize
    ensures { (key index : ℕ)
        → length (shown_as index (record { key = key; rank = rank; value = route.now })) ≡ result }
{
    ADDRESSES_OFFSET
        + 16
        + gate_size(route.gateway())
        + mask_size(rank.mask())
        + mask_size(route.genmask())
}

/// The header of that message, without its size and its addresses.
fn header(index: u16, route: &PackedRoute) -> Header
    ensures { result ≡ record (blank RTM_GET) {
      index = index;
      flags = route.now.flags;
      use_count = route.now.use_count;
      metrics = route.now.metrics;
    } }
{
    let route = route.route();
    Header {
        kind: RTM_GET,
        index,
        flags: u32::from(route.flags),
        use_count: route.use_count,
        metrics: route.metrics,
        ..Header::default()
    }
}

/// The bits of its addresses.
fn addrs(rank: Rank, route: &PackedRoute) -> u32
    ensures { (key : ℕ) → result ≡ addrs_of (route_addresses key rank route.now) }
{
    RTA_DST
        + RTA_GATEWAY
        + mask_bit(rank.mask().map(Prefix::bits), RTA_NETMASK)
        + mask_bit(route.genmask().map(Prefix::bits), RTA_GENMASK)
}

/// Puts the addresses of a route behind the place of their message's header, and answers where they end.
fn put_addresses(key: Inet, rank: Rank, route: &PackedRoute, room: &mut [u8]) -> usize
    requires { MOST_SHOWN ≤ length room.old }
    ensures end { result ≡ ADDRESSES_OFFSET + length (address_bytes (route_addresses key rank route.now)) }
    ensures most { result ≤ MOST_SHOWN }
    ensures text { room.new ≡ pasted ADDRESSES_OFFSET (address_bytes (route_addresses key rank route.now)) room.old }
{
    let gateway = put_inet(key, room, ADDRESSES_OFFSET);
    let netmask = put_gate(&Some(route.gateway()), room, gateway);
    let genmask = put_mask(rank.mask().map(Prefix::bits), room, netmask);
    put_mask(route.genmask().map(Prefix::bits), room, genmask)
}

/// Puts the message that shows a route of the interface with this index to the front of `room`, and answers how many
/// bytes it takes. Each field and address is put straight to its place: a dump makes one message after the other there.
#[inline(always)]
pub(crate) fn put_shown(
    index: u16,
    key: Inet,
    rank: Rank,
    route: &PackedRoute,
    room: &mut [u8],
) -> usize
    requires { MOST_SHOWN ≤ length room.old }
    ensures most { result ≤ MOST_SHOWN }
    ensures message { take result room.new ≡ shown_as index (record { key = key; rank = rank; value = route.now }) }
    ensures size { result ≡ length (take result room.new) }
    ensures whole { IsWhole (take result room.new) }
{
    let size = put_addresses(key, rank, route, room);
    put_route_header(&header(index, route), size as u16, addrs(rank, route), room);
    size
}
