//! Link-layer addresses.
ghost use Rattle.std.specs.Prelude.{◌≡◌, ◌+◌, ◌≤◌, ◌++◌, true, length, slice_index};
ghost use Rattle.std.specs.List.{list_all};
ghost use Rattle.sock_addrs.specs.Padded.{padded_to};
ghost use Rattle.message_text.specs.Addresses.{has_link_room as has_room_for_link, is_link, is_plain, link_address, link_cells, link_name, link_text};
ghost use Rattle.message_text.specs.Room.{written};

use crate::hexadecimal::put_hex;
use crate::room::put;
use crate::rows::put_number;
use arrayvec::ArrayVec;
use sock_addrs::families::AF_LINK;
use sock_addrs::round;

/// A byte, or 0 past the end.
pub(crate) fn byte_at(bytes: &[u8], at: usize) -> u8
    ensures { result ≡ slice_index bytes.now at }
{
    bytes.get(at).copied().unwrap_or(0)
}

/// Whether the length byte takes all the bytes, and counts the name and the address.
fn has_link_room(sockaddr: &[u8]) -> bool
    ensures { result ≡ has_room_for_link sockaddr.now }
{
    round(byte_at(sockaddr, 0)) == sockaddr.len()
        && 8 + usize::from(byte_at(sockaddr, 5)) + usize::from(byte_at(sockaddr, 6))
            <= sockaddr.len()
}

/// The name in a link-layer address.
fn name_in(sockaddr: &[u8]) -> &[u8]
    requires { has_room_for_link sockaddr.now ≡ true }
    ensures name { result.now ≡ link_name sockaddr.now }
    ensures size { length result.now ≡ slice_index sockaddr.now 5 }
{
    let end = 8 + usize::from(byte_at(sockaddr, 5));
    &sockaddr[8..end]
}

/// The address in a link-layer address.
fn address_in(sockaddr: &[u8]) -> &[u8]
    requires { has_room_for_link sockaddr.now ≡ true }
    ensures address { result.now ≡ link_address sockaddr.now }
    ensures size { length result.now ≡ slice_index sockaddr.now 6 }
{
    let begin = 8 + usize::from(byte_at(sockaddr, 5));
    let end = begin + usize::from(byte_at(sockaddr, 6));
    &sockaddr[begin..end]
}

/// What is written of a link-layer address with the same length, index, type, name and address.
fn cells(sockaddr: &[u8]) -> ArrayVec<u8, 256>
    requires { has_room_for_link sockaddr.now ≡ true }
    ensures { result.items ≡ link_cells sockaddr.now }
{
    let head = [
        byte_at(sockaddr, 0),
        AF_LINK,
        byte_at(sockaddr, 2),
        byte_at(sockaddr, 3),
        byte_at(sockaddr, 4),
        byte_at(sockaddr, 5),
        byte_at(sockaddr, 6),
        0,
    ];
    let size = round(byte_at(sockaddr, 0));
    joined(&head, name_in(sockaddr), address_in(sockaddr), size)
}

/// The parts one after another, with zeros behind them up to `size` bytes.
fn joined(head: &[u8], name: &[u8], address: &[u8], size: usize) -> ArrayVec<u8, 256>
    requires fit { length head.now + length name.now + length address.now ≤ size }
    requires most { size ≤ 256 }
    ensures { result.items ≡ padded_to size (head.now ++ name.now ++ address.now) }
{
    let mut bytes = ArrayVec::new();
    bytes.try_extend_from_slice(head).unwrap();
    bytes.try_extend_from_slice(name).unwrap();
    bytes.try_extend_from_slice(address).unwrap();
    let zeros = size - bytes.len();
    bytes.try_extend_from_slice(&[0; 256][..zeros]).unwrap();
    bytes
}

/// Whether all bytes are printed as they are in a name.
fn are_plain(name: &[u8]) -> bool
    ensures { result ≡ list_all is_plain name.now }
{
    name.iter().all(|b| 32 < *b && *b < 127 && *b != b':')
}

/// Whether the bytes are those that are written of a link-layer address.
#[tactic(auto, unfolding(crate::specs::Addresses::is_link))]
pub(crate) fn is_link_sockaddr(sockaddr: &[u8]) -> bool
    ensures link { result ≡ is_link sockaddr.now }
    ensures room { result ≡ true → has_room_for_link sockaddr.now ≡ true }
{
    if !has_link_room(sockaddr) {
        return false;
    }
    are_plain(name_in(sockaddr)) && sockaddr == cells(sockaddr).as_slice()
}

/// Puts a link-layer address: its name and its octets, and its index, type and length.
#[tactic(auto, unfolding(crate::specs::Addresses::link_text))]
pub(crate) fn put_link(sockaddr: &[u8], room: &mut [u8], at: usize) -> usize
    requires link { has_room_for_link sockaddr.now ≡ true }
    requires fits { at + 582 ≤ length room.old }
    ensures most { result ≤ at + 582 }
    ensures text { written room.new result ≡ written room.old at ++ link_text sockaddr.now }
{
    let index = u16::from_be_bytes([byte_at(sockaddr, 2), byte_at(sockaddr, 3)]);
    let at = put(b"link ", room, at);
    let at = put(name_in(sockaddr), room, at);
    let at = put(b":", room, at);
    let at = put_hex(address_in(sockaddr), room, at);
    let at = put_number(b" index ", u32::from(index), b"", room, at);
    let at = put_number(b" type ", u32::from(byte_at(sockaddr, 4)), b"", room, at);
    put_number(b" length ", u32::from(byte_at(sockaddr, 0)), b"", room, at)
}
