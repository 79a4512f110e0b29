//! A message taken apart: its faults, its header and its addresses.
ghost use Rattle.std.specs.Prelude.{◌≡◌, ◌<◌, ◌≤◌, true, IfNone, IfSome, MatchOption, None, Some, length, max};
ghost use Rattle.message_text.specs.Addresses.{behind, places};
ghost use Rattle.message_text.specs.Parts.{address_in, addrs_in, body_of, fault_in, from_address, has_size as has_size_said, header_in, header_size as size_of_header, ifa_header_in, is_about_address as about_address};

use crate::addresses::{begins, have_room, parted};
use crate::link::byte_at;
use crate::rows::{u8_at, u16_at, u32_at};
use route_msgs::bits::{
    RTA_AUTHOR, RTA_BRD, RTA_DST, RTA_GATEWAY, RTA_GENMASK, RTA_IFA, RTA_IFP, RTA_NETMASK,
};
use route_msgs::kinds::{RTM_DELADDR, RTM_NEWADDR, RTM_VERSION};
use route_msgs::{Header, IfaHeader, MsgErr, read_header};

/// Whether the type says that a message is about an interface's address.
pub(crate) fn is_about_address(message: &[u8]) -> bool
    ensures { result ≡ about_address message.now }
{
    let kind = byte_at(message, 3);
    kind == RTM_NEWADDR || kind == RTM_DELADDR
}

/// The bytes of its header.
fn header_size(message: &[u8]) -> usize
    ensures { result ≡ size_of_header message.now }
{
    if is_about_address(message) { 20 } else { 76 }
}

/// Whether it has its header, and the length that this says.
fn has_size(message: &[u8]) -> bool
    ensures size { result ≡ has_size_said message.now }
    ensures header { result ≡ true → size_of_header message.now ≤ length message.now }
{
    message.len() >= header_size(message) && usize::from(u16_at(message, 0)) == message.len()
}

/// The field that names its addresses.
pub(crate) fn addrs(message: &[u8]) -> u32
    requires { size_of_header message.now ≤ length message.now }
    ensures { result ≡ addrs_in message.now }
{
    if is_about_address(message) {
        u32_at(message, 4)
    } else {
        u32_at(message, 12)
    }
}

/// The bytes behind its header.
pub(crate) fn body(message: &[u8]) -> &[u8]
    requires { size_of_header message.now ≤ length message.now }
    ensures { result.now ≡ body_of message.now }
{
    &message[header_size(message)..]
}

/// Why bytes are no message, the first reason that holds: their length, their version, or an address that passes the
/// end.
pub fn fault_of(message: &[u8]) -> Option<MsgErr>
    ensures fault { result ≡ fault_in message.now }
    ensures none { IfNone result (size_of_header message.now ≤ length message.now) }
{
    if !has_size(message) {
        return Some(MsgErr::Length);
    }
    if u8_at(message, 2) != RTM_VERSION {
        return Some(MsgErr::Version);
    }
    if have_room(addrs(message), body(message)).is_none() {
        return Some(MsgErr::Overrun);
    }
    None
}

/// The header of a message, by its type.
#[derive(Clone, Copy, Debug, PartialEq, Eq)]
pub enum MessageHeader {
    /// That of a message about a route.
    OfRoute(Header),
    /// That of a message about an interface's address.
    OfAddress(IfaHeader),
}

/// The header of a message, or `None` where its length is wrong.
pub fn header_of(message: &[u8]) -> Option<MessageHeader>
    ensures { result ≡ header_in message.now }
{
    if !has_size(message) {
        return None;
    }
    Some(if is_about_address(message) {
        MessageHeader::OfAddress(ifa_header(message))
    } else {
        MessageHeader::OfRoute(read_header(message))
    })
}

fn ifa_header(message: &[u8]) -> IfaHeader
    requires { 20 ≤ length message.now }
    ensures { result ≡ ifa_header_in message.now }
{
    IfaHeader {
        kind: u8_at(message, 3),
        addrs: u32_at(message, 4),
        flags: u32_at(message, 8),
        index: u16_at(message, 12),
        padding: u16_at(message, 14),
        metric: u32_at(message, 16),
    }
}

/// The address of this bit, one of `bits`, where it is there: how many bytes stand before it, and its own, without
/// padding.
pub fn address_of(bit: u32, message: &[u8]) -> Option<(usize, &[u8])>
    requires { size_of_header message.now ≤ length message.now }
    ensures address { let address = address_in bit message.now
        in MatchOption result (address ≡ None) (λ part. address ≡ Some (record { start = part.0; bytes = part.1.now })) }
    ensures short { IfSome result (λ part. length part.1.now < 256) }
{
    let last = from(bit, addrs(message), body(message))?;
    let size = usize::from(byte_at(last, 0)).max(1);
    let start = message.len() - last.len();
    Some((start, &last[..size.min(last.len())]))
}

/// The bytes from the address of this bit on, where it is there.
fn from(bit: u32, addrs: u32, bytes: &[u8]) -> Option<&[u8]>
    ensures from { let last = from_address places bit addrs bytes.now
        in MatchOption result (last ≡ None) (λ there. last ≡ Some there.now) }
    ensures within { IfSome result (λ there. length there.now ≤ length bytes.now) }
{
    let gateway = rest(RTA_DST, addrs, bytes);
    let netmask = rest(RTA_GATEWAY, addrs, gateway);
    let genmask = rest(RTA_NETMASK, addrs, netmask);
    let ifp = rest(RTA_GENMASK, addrs, genmask);
    let ifa = rest(RTA_IFP, addrs, ifp);
    let author = rest(RTA_IFA, addrs, ifa);
    let brd = rest(RTA_AUTHOR, addrs, author);
    let there = match bit {
        RTA_DST => bytes,
        RTA_GATEWAY => gateway,
        RTA_NETMASK => netmask,
        RTA_GENMASK => genmask,
        RTA_IFP => ifp,
        RTA_IFA => ifa,
        RTA_AUTHOR => author,
        RTA_BRD => brd,
        _ => return None,
    };
    if begins(bit, addrs, there) {
        Some(there)
    } else {
        None
    }
}

/// The bytes behind the address of this bit, where it is there, and else all.
#[tactic(auto, unfolding(crate::specs::Addresses::behind))]
fn rest(bit: u32, addrs: u32, bytes: &[u8]) -> &[u8]
    ensures behind { result.now ≡ behind bit addrs bytes.now }
    ensures within { length result.now ≤ length bytes.now }
{
    if begins(bit, addrs, bytes) {
        parted(bytes).1
    } else {
        bytes
    }
}
