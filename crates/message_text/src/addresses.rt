//! The addresses behind a header.
ghost use Rattle.std.specs.Prelude.{◌≡◌, ◌+◌, ◌≤◌, ◌++◌, ◌==◌, ◌||◌, true, false, None, codes, drop, length, MatchOption, IfOk, is_err};
ghost use Rattle.memory.specs.Refusing.{Rises};
ghost use Rattle.sock_addrs.specs.Reading.{length_byte};
ghost use Rattle.sock_addrs.specs.Rounding.{rounded};
ghost use Rattle.message_text.specs.Addresses.{address_line, address_lines, address_text, behind, begins as begins_there, dotted, front, is_inet, mask_in, one_passes, passes, place, places, rest_line};
ghost use Rattle.message_text.specs.Room.{so_far, written};

use crate::hexadecimal::put_hex;
use crate::link::{byte_at, is_link_sockaddr, put_link};
use crate::pages::{LINE, ROOM, make_room, put_named_hex};
use crate::room::{put, put_decimal};
use memory::Memory;
use route_msgs::Sockaddr;
use route_msgs::bits::{
    RTA_AUTHOR, RTA_BRD, RTA_DST, RTA_GATEWAY, RTA_GENMASK, RTA_IFA, RTA_IFP, RTA_NETMASK,
};
use sock_addrs::families::AF_INET;
use sock_addrs::{read_mask, round};
use std::alloc::AllocError;

/// Puts bytes 4 to 7 as `10.0.0.1`.
#[tactic(auto, unfolding(crate::specs::Addresses::dotted))]
fn put_dotted(sockaddr: &[u8], room: &mut [u8], at: usize) -> usize
    requires { at + 43 ≤ length room.old }
    ensures most { result ≤ at + 43 }
    ensures text { written room.new result ≡ written room.old at ++ dotted sockaddr.now }
{
    let at = put_decimal(u32::from(byte_at(sockaddr, 4)), room, at);
    let at = put(b".", room, at);
    let at = put_decimal(u32::from(byte_at(sockaddr, 5)), room, at);
    let at = put(b".", room, at);
    let at = put_decimal(u32::from(byte_at(sockaddr, 6)), room, at);
    let at = put(b".", room, at);
    put_decimal(u32::from(byte_at(sockaddr, 7)), room, at)
}

/// Whether the bytes are those that are written of an IPv4 address.
#[tactic(auto, unfolding(crate::specs::Addresses::is_inet))]
fn is_inet_sockaddr(sockaddr: &[u8]) -> bool
    ensures { result ≡ is_inet sockaddr.now }
{
    let a = byte_at(sockaddr, 4);
    let b = byte_at(sockaddr, 5);
    let c = byte_at(sockaddr, 6);
    let d = byte_at(sockaddr, 7);
    let cells = [16, AF_INET, 0, 0, a, b, c, d, 0, 0, 0, 0, 0, 0, 0, 0];
    sockaddr == cells.as_slice()
}

/// The bits of a mask, where the bytes are those that are written of it.
#[tactic(auto, unfolding(crate::specs::Addresses::mask_in))]
fn mask_written(sockaddr: &[u8]) -> Option<u8>
    ensures { result ≡ mask_in sockaddr.now }
{
    match read_mask(sockaddr) {
        Ok(bits) => {
            let mask = Sockaddr::mask(bits);
            if sockaddr == mask.as_bytes() {
                Some(bits)
            } else {
                None
            }
        }
        Err(_) => None,
    }
}

/// Puts an address; where a mask stands also as a mask.
fn put_address(sockaddr: &[u8], is_mask: bool, room: &mut [u8], at: usize) -> usize
    requires short { length sockaddr.now ≤ 256 }
    requires fits { at + 582 ≤ length room.old }
    ensures most { result ≤ at + 582 }
    ensures text { written room.new result ≡ written room.old at ++ address_text is_mask sockaddr.now }
{
    if is_inet_sockaddr(sockaddr) {
        return put_dotted(sockaddr, room, at);
    }
    let mask = if is_mask {
        mask_written(sockaddr)
    } else {
        None
    };
    if let Some(bits) = mask {
        let at = put_dotted(sockaddr, room, at);
        let at = put(b" (/", room, at);
        let at = put_decimal(u32::from(bits), room, at);
        return put(b")", room, at);
    }
    if is_link_sockaddr(sockaddr) {
        return put_link(sockaddr, room, at);
    }
    let at = put(b"bytes ", room, at);
    put_hex(sockaddr, room, at)
}

/// Whether the address of this bit is named, and begins before the end.
pub(crate) fn begins(bit: u32, addrs: u32, bytes: &[u8]) -> bool
    ensures { result ≡ begins_there bit addrs bytes.now }
{
    addrs & bit != 0 && !bytes.is_empty()
}

/// The bytes that the first address takes, with its padding where this is there, and those behind it.
pub(crate) fn parted(bytes: &[u8]) -> (&[u8], &[u8])
    ensures front { result.0.now ≡ front bytes.now }
    ensures short { length result.0.now ≤ 256 }
    ensures behind { result.1.now ≡ drop (rounded (length_byte bytes.now)) bytes.now }
{
    let size = round(byte_at(bytes, 0)).min(bytes.len());
    bytes.split_at(size)
}

/// The bytes behind the address of this bit, or `None` where its length byte counts bytes past the end.
#[tactic(auto, unfolding(crate::specs::Addresses::behind, crate::specs::Addresses::passes))]
fn after(bit: u32, addrs: u32, bytes: &[u8]) -> Option<&[u8]>
    ensures { MatchOption result (passes bit addrs bytes.now ≡ true)
        (λ rest. (passes bit addrs bytes.now ≡ false) × (rest.now ≡ behind bit addrs bytes.now)) }
{
    if !begins(bit, addrs, bytes) {
        return Some(bytes);
    }
    if bytes.len() < usize::from(byte_at(bytes, 0)) {
        return None;
    }
    Some(parted(bytes).1)
}

/// Whether no address passes the end. `None` where one does.
pub(crate) fn have_room(addrs: u32, bytes: &[u8]) -> Option<()>
    ensures { MatchOption result (one_passes places addrs bytes.now ≡ true)
        (λ _. one_passes places addrs bytes.now ≡ false) }
{
    let bytes = after(RTA_DST, addrs, bytes)?;
    let bytes = after(RTA_GATEWAY, addrs, bytes)?;
    let bytes = after(RTA_NETMASK, addrs, bytes)?;
    let bytes = after(RTA_GENMASK, addrs, bytes)?;
    let bytes = after(RTA_IFP, addrs, bytes)?;
    let bytes = after(RTA_IFA, addrs, bytes)?;
    let bytes = after(RTA_AUTHOR, addrs, bytes)?;
    after(RTA_BRD, addrs, bytes)?;
    Some(())
}

/// Puts the line of an address of this name.
fn put_line(name: &[u8], sockaddr: &[u8], is_mask: bool, room: &mut [u8], at: usize) -> usize
    requires name { length name.now ≤ 9 }
    requires short { length sockaddr.now ≤ 256 }
    requires fits { at + LINE ≤ length room.old }
    ensures most { result ≤ at + LINE }
    ensures text { written room.new result
        ≡ written room.old at ++ (name.now ++ address_text is_mask sockaddr.now ++ codes "\n") }
{
    let at = put(name, room, at);
    let at = put_address(sockaddr, is_mask, room, at);
    put(b"\n", room, at)
}

/// Whether an address of this bit is a mask.
fn is_mask(bit: u32) -> bool
    ensures { result ≡ (bit == RTA_NETMASK || bit == RTA_GENMASK) }
{
    bit == RTA_NETMASK || bit == RTA_GENMASK
}

/// Puts the line of the address of this bit, where it is there. `from` is where the text ends, and the bytes that are
/// left of all addresses: it answers both behind the address.
#[inline(always)]
#[tactic(auto, unfolding(crate::specs::Addresses::behind, crate::specs::Addresses::address_line))]
fn put_next<'a>(
    bit: u32,
    name: &str,
    addrs: u32,
    from: (usize, &'a [u8]),
    out: &mut Vec<u8>,
    room: &mut [u8],
    memory: &mut Memory,
) -> Result<(usize, &'a [u8]), AllocError>
    requires name { length name.now ≤ 9 }
    requires size { length room.old ≡ ROOM }
    requires place { from.0 ≤ ROOM }
    ensures text { IfOk result (λ end. so_far out.new.items room.new end.0
        ≡ so_far out.old.items room.old from.entry.0
        ++ address_line (place bit name.now (bit == RTA_NETMASK || bit == RTA_GENMASK)) addrs from.entry.1.now) }
    ensures rest { IfOk result (λ end. end.1.now ≡ behind bit addrs from.entry.1.now) }
    ensures place { IfOk result (λ end. end.0 ≤ ROOM) }
    ensures counted { Rises (is_err result) memory.old memory.new }
{
    let (at, bytes) = from;
    if !begins(bit, addrs, bytes) {
        return Ok((at, bytes));
    }
    let (sockaddr, rest) = parted(bytes);
    let begin = make_room(out, room, at, memory)?;
    let end = put_line(name.as_bytes(), sockaddr, is_mask(bit), room, begin);
    Ok((end, rest))
}

/// Puts the line of the bytes that no address has, where there are any.
#[tactic(auto, unfolding(crate::specs::Addresses::rest_line))]
fn put_rest(
    bytes: &[u8],
    out: &mut Vec<u8>,
    room: &mut [u8],
    at: usize,
    memory: &mut Memory,
) -> Result<usize, AllocError>
    requires size { length room.old ≡ ROOM }
    requires place { at ≤ ROOM }
    ensures text { IfOk result (λ end. so_far out.new.items room.new end
        ≡ so_far out.old.items room.old at ++ rest_line bytes.now) }
    ensures place { IfOk result (λ end. end ≤ ROOM) }
    ensures counted { Rises (is_err result) memory.old memory.new }
{
    if bytes.is_empty() {
        return Ok(at);
    }
    put_named_hex(b" behind ", bytes, b"\n", out, room, at, memory)
}

/// Puts the lines of all addresses.
pub(crate) fn put_addresses(
    addrs: u32,
    bytes: &[u8],
    out: &mut Vec<u8>,
    room: &mut [u8],
    at: usize,
    memory: &mut Memory,
) -> Result<usize, AllocError>
    requires size { length room.old ≡ ROOM }
    requires place { at ≤ ROOM }
    ensures text { IfOk result (λ end. so_far out.new.items room.new end
        ≡ so_far out.old.items room.old at ++ address_lines places addrs bytes.now) }
    ensures place { IfOk result (λ end. end ≤ ROOM) }
    ensures counted { Rises (is_err result) memory.old memory.new }
{
    let gateway = put_next(RTA_DST, " DST ", addrs, (at, bytes), out, room, memory)?;
    let netmask = put_next(RTA_GATEWAY, " GATEWAY ", addrs, gateway, out, room, memory)?;
    let genmask = put_next(RTA_NETMASK, " NETMASK ", addrs, netmask, out, room, memory)?;
    let ifp = put_next(RTA_GENMASK, " GENMASK ", addrs, genmask, out, room, memory)?;
    let ifa = put_next(RTA_IFP, " IFP ", addrs, ifp, out, room, memory)?;
    let author = put_next(RTA_IFA, " IFA ", addrs, ifa, out, room, memory)?;
    let brd = put_next(RTA_AUTHOR, " AUTHOR ", addrs, author, out, room, memory)?;
    let behind = put_next(RTA_BRD, " BRD ", addrs, brd, out, room, memory)?;
    let end = put_rest(behind.1, out, room, behind.0, memory)?;
    Ok(end)
}
