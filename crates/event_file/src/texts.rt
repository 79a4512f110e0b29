ghost use Rattle.std.specs.Prelude.{◌≡◌, ◌≤◌, length, take, Some, None};
ghost use Rattle.std.specs.List.{list_all};
ghost use Rattle.std.specs.Option.{IfSome, MatchOption};
ghost use Rattle.event_file.specs.Grammar.{most_link_bytes};
ghost use Rattle.event_file.specs.Words.{is_name_byte, name_of, interface_kind_of, switch_of, bytes_to, link_of, gate_of};

use crate::hexadecimal;
use crate::numbers::read_inet;
use crate::words::{is, one_or_two};
use route_core::{Kind, Lent, LinkAddress, MOST_WRITTEN};
use sock_addrs::{Gate, Link, Name};

/// Whether all bytes are of `a` to `z` and `0` to `9`.
fn are_name_bytes(word: &[u8]) -> bool
    ensures { result ≡ list_all is_name_byte word.now }
{
    word.iter()
        .all(|b| b.is_ascii_lowercase() || b.is_ascii_digit())
}

/// The name of an interface or the id of a socket: 1 to 8 of `a` to `z` and `0` to `9`.
pub(crate) fn read_name(word: &[u8]) -> Option<Name>
    ensures { result ≡ name_of word.now }
{
    if are_name_bytes(word) {
        Name::new(word)
    } else {
        None
    }
}

/// The kind of an interface.
pub(crate) fn read_kind(word: &[u8]) -> Option<Kind>
    ensures { result ≡ interface_kind_of word.now }
{
    if is(word, "broadcast") {
        return Some(Kind::Broadcast);
    }
    if is(word, "loopback") {
        return Some(Kind::Loopback);
    }
    if is(word, "ptp") {
        return Some(Kind::PointToPoint);
    }
    None
}

/// `on`, or `off`.
pub(crate) fn read_switch(word: &[u8]) -> Option<bool>
    ensures { result ≡ switch_of word.now }
{
    if is(word, "on") {
        return Some(true);
    }
    if is(word, "off") {
        return Some(false);
    }
    None
}

/// Writes the bytes that a word spells in hexadecimal, `-` for none, to the front of `room` and answers how many they
/// are. `None` where it is no such word, or spells more than there is room for.
fn decode(word: &[u8], room: &mut [u8]) -> Option<usize>
    ensures value { MatchOption result (bytes_to (length room.old) word.now ≡ None)
        (λ n. bytes_to (length room.old) word.now ≡ Some (take n room.new)) }
    ensures most { IfSome result (λ n. n ≤ length room.new) }
{
    if word == b"-".as_slice() {
        return Some(0);
    }
    let pairs = word.len() / 2;
    if pairs == 0 || pairs > room.len() {
        return None;
    }
    if !hexadecimal::decode(word, &mut room[..pairs]) {
        return None;
    }
    Some(pairs)
}

/// A link-layer address of at most 8 bytes in hexadecimal, or `-`.
pub(crate) fn read_link(word: &[u8]) -> Option<LinkAddress>
    ensures { result ≡ bytes_to most_link_bytes word.now }
{
    let mut room = [0; 8];
    let count = decode(word, &mut room)?;
    LinkAddress::new(&room[..count])
}

/// The bytes of a write in hexadecimal, at most `MOST_WRITTEN` of them, or `-`. They are decoded to the front of
/// `room`.
pub(crate) fn read_written<'a>(word: &[u8], room: &'a mut [u8]) -> Option<Lent<'a>>
    requires { length room.old ≡ MOST_WRITTEN }
    ensures { result ≡ bytes_to MOST_WRITTEN word.now }
{
    let count = decode(word, room)?;
    Lent::new(&room[..count])
}

/// The link-layer address that a word spells in hexadecimal: 8 to 32 bytes, the first their number and the second its
/// family.
fn read_link_sockaddr(word: &[u8]) -> Option<Link>
    ensures { result ≡ link_of word.now }
{
    let mut room = [0; 32];
    let count = decode(word, &mut room)?;
    Link::new(&room[..count])
}

/// A gateway: an IPv4 address, or `link:` and a link-layer address in hexadecimal.
#[inline(never)]
pub(crate) fn read_gate(word: &[u8]) -> Option<Gate>
    ensures { result ≡ gate_of word.now }
{
    match one_or_two(b':', word)? {
        (address, None) => Some(Gate::Inet(read_inet(address)?)),
        (kind, Some(digits)) if is(kind, "link") => Some(Gate::Link(read_link_sockaddr(digits)?)),
        _ => None,
    }
}
