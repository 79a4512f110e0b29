ghost use Rattle.std.specs.Prelude.{◌≡◌, ◌+◌, ◌≤◌, ◌++◌, drop, length};
ghost use Rattle.route_msgs.specs.AddrInfo.{address_bytes};
ghost use Rattle.route_msgs.specs.Layout.{number_at, with_fields};
ghost use Rattle.route_msgs.specs.Headers.{ifa_head, ifa_message, metric_fields, route_head, route_message};

use crate::fields::{patch_u8, patch_u16, patch_u32};
use crate::kinds::RTM_VERSION;
use crate::{AddrInfo, Header, IfaHeader, MOST_MADE, Message, Metrics};

// What writes a message about a route is inlined, as what makes its addresses is: of the eight that there is room for
// most messages have two or three, and where those are known the others are neither cleared, moved nor asked for.

/// Writes a message about a route: the header with the message's length and version 3, and behind it the addresses. The
/// addrs field names the addresses that are given, whatever `header.addrs` says.
#[inline(always)]
pub fn write_route_msg(header: &Header, addresses: &AddrInfo) -> Message
    requires { 76 + length (address_bytes addresses.now) ≤ MOST_MADE }
    ensures message { result.items ≡ route_message header.now addresses.now }
    ensures size { length result.items ≡ 76 + length (address_bytes addresses.now) }
    ensures says_size { number_at 0 2 result.items ≡ length result.items }
{
    let mut message = Message::new();
    put_route_msg(header, addresses, &mut message);
    message
}

/// Writes a message about a route, as `write_route_msg`, in the place of what is in `message`.
#[inline(always)]
pub fn put_route_msg(header: &Header, addresses: &AddrInfo, message: &mut Message)
    requires { 76 + length (address_bytes addresses.now) ≤ MOST_MADE }
    ensures message { message.new.items ≡ route_message header.now addresses.now }
    ensures size { length message.new.items ≡ 76 + length (address_bytes addresses.now) }
    ensures says_size { number_at 0 2 message.new.items ≡ length message.new.items }
{
    let size = route_msg_size(addresses);
    let head = route_header(header, size as u16, addresses.addrs());
    message.clear();
    message.try_extend_from_slice(&head).unwrap();
    addresses.put(message);
}

/// How many bytes a message about a route takes that has these addresses.
pub fn route_msg_size(addresses: &AddrInfo) -> usize
    ensures { result ≡ 76 + length (address_bytes addresses.now) }
{
    76 + addresses.size()
}

/// Writes a message about an interface's address: the header with the message's length and version 3, and behind it the
/// addresses. The addrs field names the addresses that are given, whatever `header.addrs` says.
pub fn write_ifa_msg(header: &IfaHeader, addresses: &AddrInfo) -> Message
    requires { 20 + length (address_bytes addresses.now) ≤ MOST_MADE }
    ensures message { result.items ≡ ifa_message header.now addresses.now }
    ensures size { length result.items ≡ 20 + length (address_bytes addresses.now) }
    ensures says_size { number_at 0 2 result.items ≡ length result.items }
{
    let size = 20 + addresses.size();
    let head = ifa_header(header, size as u16, addresses.addrs());
    let mut message = Message::new();
    message.try_extend_from_slice(&head).unwrap();
    addresses.put(&mut message);
    message
}

/// Writes the header of a message about a route to the front of `out`: with this size of the whole message, version 3,
/// and these bits as its addrs field, whatever `header.addrs` says. What stands behind it stays.
pub fn put_route_header(header: &Header, size: u16, addrs: u32, out: &mut [u8])
    requires { 76 ≤ length out.old }
    ensures { out.new ≡ route_head size addrs header.now ++ drop 76 out.old }
{
    let head = route_header(header, size, addrs);
    out[..76].copy_from_slice(&head);
}

fn route_header(header: &Header, size: u16, addrs: u32) -> [u8; 76]
    ensures { result ≡ route_head size addrs header.now }
{
    let mut head = [0; 76];
    patch_u16(&mut head, 0, size);
    patch_u8(&mut head, 2, RTM_VERSION);
    patch_u8(&mut head, 3, header.kind);
    patch_u16(&mut head, 4, header.index);
    patch_u16(&mut head, 6, header.padding);
    patch_u32(&mut head, 8, header.flags);
    patch_u32(&mut head, 12, addrs);
    patch_u32(&mut head, 16, header.pid);
    patch_u32(&mut head, 20, header.seq);
    patch_u32(&mut head, 24, header.errno);
    patch_u32(&mut head, 28, header.use_count);
    patch_u32(&mut head, 32, header.inits);
    write_metrics(&header.metrics, &mut head);
    head
}

fn write_metrics(metrics: &Metrics, head: &mut [u8])
    requires { length head.old ≡ 76 }
    ensures { head.new ≡ with_fields (metric_fields metrics.now) head.old }
{
    patch_u32(head, 36, metrics.locks);
    patch_u32(head, 40, metrics.mtu);
    patch_u32(head, 44, metrics.hopcount);
    patch_u32(head, 48, metrics.expire);
    patch_u32(head, 52, metrics.recvpipe);
    patch_u32(head, 56, metrics.sendpipe);
    patch_u32(head, 60, metrics.ssthresh);
    patch_u32(head, 64, metrics.rtt);
    patch_u32(head, 68, metrics.rttvar);
    patch_u32(head, 72, metrics.pksent);
}

fn ifa_header(header: &IfaHeader, size: u16, addrs: u32) -> [u8; 20]
    ensures { result ≡ ifa_head size addrs header.now }
{
    let mut head = [0; 20];
    patch_u16(&mut head, 0, size);
    patch_u8(&mut head, 2, RTM_VERSION);
    patch_u8(&mut head, 3, header.kind);
    patch_u32(&mut head, 4, addrs);
    patch_u32(&mut head, 8, header.flags);
    patch_u16(&mut head, 12, header.index);
    patch_u16(&mut head, 14, header.padding);
    patch_u32(&mut head, 16, header.metric);
    head
}
