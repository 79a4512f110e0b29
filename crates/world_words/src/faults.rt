//! What is wrong with a message that was written.
ghost use Rattle.std.specs.Prelude.{◌≡◌, ◌<◌, length, MatchOption, None, Some};
ghost use Rattle.route_core.specs.Writes.{destination_bytes, has_bad_gate as has_bad_gate_in, has_bad_length as has_bad_length_read, has_bad_mask as has_bad_mask_in, is_no_gate as is_no_gate_in, is_no_mask as is_no_mask_in};
ghost use Rattle.route_msgs.specs.Headers.{header_in};
ghost use Rattle.route_msgs.specs.Slots.{SlotsAreWithin, address_in, slots_in};
ghost use Rattle.sock_addrs.specs.Reading.{read_inet_of};
ghost use Rattle.world_words.specs.Faults.{address_fault as address_fault_in, message_fault as message_fault_in, missing_by_kind as missing_of_kind, missing_in, missing_reason as missing_reason_in};

use route_msgs::kinds::{RTM_CHANGE, RTM_GET, RTM_LOCK};
use route_msgs::places::{RTAX_DST, RTAX_GATEWAY, RTAX_GENMASK, RTAX_IFA, RTAX_IFP, RTAX_NETMASK};
use route_msgs::{Parsed, read_message};
use sock_addrs::families::AF_INET;
use sock_addrs::{BadAddr, family_of, read_gate, read_inet, read_mask};

/// What is wrong with a message that was refused as malformed.
pub(crate) fn message_fault(bytes: &[u8]) -> &'static str
    ensures { result.now ≡ message_fault_in bytes.now }
{
    match read_message(bytes) {
        Ok(message) => address_fault(&message, bytes),
        Err(fault) => fault.text(),
    }
}

/// What is wrong with the addresses of a message.
fn address_fault(message: &Parsed, bytes: &[u8]) -> &'static str
    requires slots { message.now.slots ≡ slots_in bytes.now }
    requires within { SlotsAreWithin (length bytes.now) message.now.slots }
    ensures { result.now ≡ address_fault_in bytes.now }
{
    let Some(destination) = address_at(message, bytes, RTAX_DST) else {
        return "there is no destination";
    };
    if has_bad_length(destination) {
        return "the destination's length is none of a sockaddr_in";
    }
    if has_bad_gate(message, bytes) {
        return "the gateway, IFP or IFA is neither an IPv4 nor a link-layer sockaddr";
    }
    if has_bad_mask(message, bytes) {
        return "a mask is not ones and then zeros";
    }
    "a route to be added wants a gateway"
}

/// What isn't there that a message is about.
pub(crate) fn missing_reason(bytes: &[u8]) -> &'static str
    ensures { result.now ≡ missing_reason_in bytes.now }
{
    match read_message(bytes) {
        Ok(message) => missing(&message, bytes),
        Err(_) => "there is no such route",
    }
}

/// What isn't there that a message without a fault is about.
fn missing(message: &Parsed, bytes: &[u8]) -> &'static str
    requires header { message.now.header ≡ header_in bytes.now }
    requires slots { message.now.slots ≡ slots_in bytes.now }
    requires within { SlotsAreWithin (length bytes.now) message.now.slots }
    ensures { result.now ≡ missing_in bytes.now }
{
    let destination = destination_of(message, bytes);
    if family_of(destination) == AF_INET {
        missing_by_kind(message.header.kind)
    } else {
        "the destination is no IPv4 address"
    }
}

/// What isn't there that a message of this type is about.
fn missing_by_kind(kind: u8) -> &'static str
    ensures { result.now ≡ missing_of_kind kind }
{
    match kind {
        RTM_GET => "no route leads there",
        RTM_CHANGE | RTM_LOCK => "no route has this destination",
        _ => "there is no such route",
    }
}

/// The bytes of the destination, none where it isn't there.
fn destination_of<'a>(message: &Parsed, bytes: &'a [u8]) -> &'a [u8]
    requires slots { message.now.slots ≡ slots_in bytes.now }
    requires within { SlotsAreWithin (length bytes.now) message.now.slots }
    ensures { result.now ≡ destination_bytes bytes.now }
{
    match address_at(message, bytes, RTAX_DST) {
        Some(destination) => destination,
        None => &[],
    }
}

/// Whether reading refuses a destination for its length.
fn has_bad_length(destination: &[u8]) -> bool
    ensures { result ≡ has_bad_length_read (read_inet_of destination.now) }
{
    match read_inet(destination) {
        Err(BadAddr::Length) => true,
        _ => false,
    }
}

/// Whether a gateway or an interface's address is there that is none.
fn has_bad_gate(message: &Parsed, bytes: &[u8]) -> bool
    requires slots { message.now.slots ≡ slots_in bytes.now }
    requires within { SlotsAreWithin (length bytes.now) message.now.slots }
    ensures { result ≡ has_bad_gate_in bytes.now }
{
    is_no_gate(message, bytes, RTAX_GATEWAY)
        || is_no_gate(message, bytes, RTAX_IFP)
        || is_no_gate(message, bytes, RTAX_IFA)
}

/// Whether a mask is there that is none.
fn has_bad_mask(message: &Parsed, bytes: &[u8]) -> bool
    requires slots { message.now.slots ≡ slots_in bytes.now }
    requires within { SlotsAreWithin (length bytes.now) message.now.slots }
    ensures { result ≡ has_bad_mask_in bytes.now }
{
    is_no_mask(message, bytes, RTAX_NETMASK) || is_no_mask(message, bytes, RTAX_GENMASK)
}

/// Whether an address is there that is no gateway.
fn is_no_gate(message: &Parsed, bytes: &[u8], at: usize) -> bool
    requires at { at < 8 }
    requires slots { message.now.slots ≡ slots_in bytes.now }
    requires within { SlotsAreWithin (length bytes.now) message.now.slots }
    ensures { result ≡ is_no_gate_in bytes.now at }
{
    match address_at(message, bytes, at) {
        Some(sockaddr) => read_gate(sockaddr).is_err(),
        None => false,
    }
}

/// Whether an address is there that is no mask.
fn is_no_mask(message: &Parsed, bytes: &[u8], at: usize) -> bool
    requires at { at < 8 }
    requires slots { message.now.slots ≡ slots_in bytes.now }
    requires within { SlotsAreWithin (length bytes.now) message.now.slots }
    ensures { result ≡ is_no_mask_in bytes.now at }
{
    match address_at(message, bytes, at) {
        Some(sockaddr) => read_mask(sockaddr).is_err(),
        None => false,
    }
}

/// The address at this place, where it is there.
#[tactic(auto, using(crate::proofs::Addresses::address_there))]
fn address_at<'a>(message: &Parsed, bytes: &'a [u8], at: usize) -> Option<&'a [u8]>
    requires at { at < 8 }
    requires slots { message.now.slots ≡ slots_in bytes.now }
    requires within { SlotsAreWithin (length bytes.now) message.now.slots }
    ensures { MatchOption result (address_in bytes.now at ≡ None)
        (λ sockaddr. address_in bytes.now at ≡ Some sockaddr.now) }
{
    message.address(at, bytes)
}
