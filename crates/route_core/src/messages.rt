//! The messages that the world makes.
ghost use Rattle.std.specs.Prelude.{◌≡◌, ◌≤◌, length, option_map};
ghost use Rattle.sock_addrs.specs.Sockaddrs.{mask_sockaddr};
ghost use Rattle.mask_table.specs.Ranks.{mask_of};
ghost use Rattle.listeners.specs.Queue.{IsMessage};
ghost use Rattle.route_msgs.specs.AddrInfo.{address_bytes, bytes_or_none, gate_sockaddr, padded};
ghost use Rattle.route_msgs.specs.Headers.{blank as blank_header};
ghost use Rattle.route_core.specs.Messages.{address_message as address_message_of, doubted as doubted_message, errno_or_zero, interface_addresses as addresses_of_interface, looked_up as looked_up_message, notice_message as message_of_notice, redirected as redirected_message, route_deleted as deleted_message, route_got as got_message, route_added as added_message, route_told as told_message};

use if_addrs::Facts;
use mask_table::Rank;
use radix_tree::Entry;
use route_entries::{Route, addresses_of, destination_of};
use route_msgs::flags::{RTF_DONE, RTF_UP};
use route_msgs::kinds::{
    RTM_ADD, RTM_DELETE, RTM_GET, RTM_LOSING, RTM_MISS, RTM_REDIRECT, RTM_RESOLVE,
};
use route_msgs::{
    AddrInfo, Header, IfaHeader, Message, Sockaddr, ifa_flags, put_route_msg, write_ifa_msg,
    write_route_msg,
};
use route_ops::Notice;
use sock_addrs::{Errno, Gate, Inet, Link};

/// What the reply to a GET shows of a route's interface.
#[derive(Clone, Copy, Debug)]
pub(crate) struct Shown {
    /// The interface's number, or what the GET has in its place.
    pub(crate) index: u16,
    /// The interface's link-layer address, where it is asked for.
    pub(crate) ifp: Option<Link>,
    /// The interface address, where it is asked for.
    pub(crate) ifa: Option<Gate>,
}

fn blank(kind: u8) -> Header
    ensures { result ≡ blank_header kind }
{
    Header {
        kind,
        ..Header::default()
    }
}

/// An address of an interface, with its mask and its far address, and the interface's link-layer address.
fn interface_addresses(link: Link, address: Inet, facts: &Facts) -> AddrInfo
    ensures texts { result ≡ addresses_of_interface link address facts.now }
    ensures size { length (address_bytes result) ≤ 72 }
{
    AddrInfo {
        netmask: Some(Sockaddr::mask(facts.prefix.bits())),
        ifp: Some(Sockaddr::link(link)),
        ifa: Some(Sockaddr::inet(address)),
        brd: Some(Sockaddr::inet(facts.far)),
        ..AddrInfo::default()
    }
}

/// A message of this type about an address of the interface with this number and link-layer address.
#[tactic(auto, using(crate::proofs::WholeMessages::message_of_size))]
pub(crate) fn address_message(
    kind: u8,
    index: u16,
    link: Link,
    address: Inet,
    facts: &Facts,
) -> Message
    ensures message { result.items ≡ address_message_of kind index link address facts.now }
    ensures whole { IsMessage result.items }
{
    let header = IfaHeader {
        kind,
        addrs: 0,
        flags: ifa_flags(facts.cloning, facts.routed),
        index,
        padding: 0,
        metric: 0,
    };
    write_ifa_msg(&header, &interface_addresses(link, address, facts))
}

/// A message of this type about the route of an interface's address, with these flags.
#[tactic(auto, using(crate::proofs::WholeMessages::message_of_size))]
fn route_told(kind: u8, index: u16, flags: u16, route: &Entry<Route>) -> Message
    requires { route.now.rank ≤ 33 }
    ensures message { result.items ≡ told_message kind index flags route.now }
    ensures whole { IsMessage result.items }
{
    let header = Header {
        index,
        flags: u32::from(flags),
        ..blank(kind)
    };
    write_route_msg(
        &header,
        &destination_of(route.key, route.rank, &route.value),
    )
}

/// That the route of an interface's new address was added.
pub(crate) fn route_added(index: u16, route: &Entry<Route>) -> Message
    requires { route.now.rank ≤ 33 }
    ensures message { result.items ≡ added_message index route.now }
    ensures whole { IsMessage result.items }
{
    route_told(RTM_ADD, index, route.value.flags, route)
}

/// That the route of an interface's address was deleted.
pub(crate) fn route_deleted(index: u16, route: &Entry<Route>) -> Message
    requires { route.now.rank ≤ 33 }
    ensures message { result.items ≡ deleted_message index route.now }
    ensures whole { IsMessage result.items }
{
    route_told(RTM_DELETE, index, route.value.flags & !RTF_UP, route)
}

/// Makes the reply to a GET: what was asked, and the route with what is shown of its interface.
#[tactic(auto, using(crate::proofs::WholeMessages::message_of_size))]
pub(crate) fn put_route_got(
    asked: &Header,
    pid: u32,
    shown: &Shown,
    route: &Entry<Route>,
    message: &mut Message,
)
    requires { route.now.rank ≤ 33 }
    ensures message { message.new.items ≡ got_message asked.now pid shown.now route.now }
    ensures whole { IsMessage message.new.items }
{
    let header = Header {
        index: shown.index,
        padding: asked.padding,
        flags: u32::from(route.value.flags | RTF_DONE),
        pid,
        seq: asked.seq,
        errno: asked.errno,
        use_count: route.value.use_count,
        inits: asked.inits,
        metrics: route.value.metrics,
        ..blank(RTM_GET)
    };
    let addresses = AddrInfo {
        ifp: link(shown.ifp),
        ifa: gate(shown.ifa),
        ..addresses_of(route.key, route.rank, &route.value)
    };
    put_route_msg(&header, &addresses, message);
}

/// A link-layer address, where there is one.
fn link(link: Option<Link>) -> Option<Sockaddr>
    ensures sockaddr { result ≡ option_map padded link }
    ensures most { length (bytes_or_none result) ≤ 32 }
{
    match link {
        Some(link) => Some(Sockaddr::link(link)),
        None => None,
    }
}

/// An interface address, where there is one.
fn gate(gate: Option<Gate>) -> Option<Sockaddr>
    ensures sockaddr { result ≡ option_map gate_sockaddr gate }
    ensures most { length (bytes_or_none result) ≤ 32 }
{
    match gate {
        Some(gate) => Some(Sockaddr::gate(gate)),
        None => None,
    }
}

/// The mask of a rank, where it has one.
fn mask(rank: Rank) -> Option<Sockaddr>
    ensures sockaddr { result ≡ option_map mask_sockaddr (mask_of rank) }
    ensures most { length (bytes_or_none result) ≤ 8 }
{
    match rank.mask() {
        Some(prefix) => Some(Sockaddr::mask(prefix.bits())),
        None => None,
    }
}

/// The errno of a message.
fn number(errno: Option<Errno>) -> u32
    ensures { result ≡ errno_or_zero errno }
{
    match errno {
        Some(errno) => errno.number(),
        None => 0,
    }
}

/// Makes a message of this type about a look-up. It is inlined, as `put_route_msg` is.
#[inline(always)]
#[tactic(auto, using(crate::proofs::WholeMessages::message_of_size))]
fn put_looked_up(kind: u8, about: Gate, errno: Option<Errno>, message: &mut Message)
    ensures message { message.new.items ≡ looked_up_message kind about errno }
    ensures whole { IsMessage message.new.items }
{
    let header = Header {
        flags: u32::from(RTF_DONE),
        errno: number(errno),
        ..blank(kind)
    };
    let addresses = AddrInfo {
        dst: Some(Sockaddr::gate(about)),
        ..AddrInfo::default()
    };
    put_route_msg(&header, &addresses, message);
}

/// Makes the message of a redirect.
#[tactic(auto, using(crate::proofs::WholeMessages::message_of_size))]
fn put_redirected(
    destination: Inet,
    gateway: Gate,
    author: Inet,
    flags: u16,
    errno: Option<Errno>,
    message: &mut Message,
)
    ensures message { message.new.items ≡ redirected_message destination gateway author flags errno }
    ensures whole { IsMessage message.new.items }
{
    let header = Header {
        flags: u32::from(flags),
        errno: number(errno),
        ..blank(RTM_REDIRECT)
    };
    let addresses = AddrInfo {
        dst: Some(Sockaddr::inet(destination)),
        gateway: Some(Sockaddr::gate(gateway)),
        author: Some(Sockaddr::inet(author)),
        ..AddrInfo::default()
    };
    put_route_msg(&header, &addresses, message);
}

/// Makes the message of a route that is doubted.
#[tactic(auto, using(crate::proofs::WholeMessages::message_of_size))]
fn put_doubted(destination: Inet, gateway: Gate, rank: Rank, flags: u16, message: &mut Message)
    ensures message { message.new.items ≡ doubted_message destination gateway rank flags }
    ensures whole { IsMessage message.new.items }
{
    let header = Header {
        flags: u32::from(flags | RTF_DONE),
        ..blank(RTM_LOSING)
    };
    let addresses = AddrInfo {
        dst: Some(Sockaddr::inet(destination)),
        gateway: Some(Sockaddr::gate(gateway)),
        netmask: mask(rank),
        ..AddrInfo::default()
    };
    put_route_msg(&header, &addresses, message);
}

/// Makes the message of a notice.
pub(crate) fn put_notice(notice: &Notice, message: &mut Message)
    ensures message { message.new.items ≡ message_of_notice notice.now }
    ensures whole { IsMessage message.new.items }
{
    match notice {
        Notice::Miss { about, errno } => put_looked_up(RTM_MISS, *about, *errno, message),
        Notice::Resolve { about } => put_looked_up(RTM_RESOLVE, *about, None, message),
        Notice::Redirect {
            destination,
            gateway,
            author,
            flags,
            errno,
        } => put_redirected(*destination, *gateway, *author, *flags, *errno, message),
        Notice::Losing {
            address,
            gateway,
            rank,
            flags,
        } => put_doubted(*address, *gateway, *rank, *flags, message),
    }
}
