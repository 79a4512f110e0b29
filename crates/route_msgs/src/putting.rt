//! Addresses that are put into a room of the caller's, each from a place on: what stands before it and behind it stays,
//! and where it ends is answered, so that one is put behind the other.
ghost use Rattle.std.specs.Prelude.{◌≡◌, ◌+◌, ◌≤◌, IfSome, length, option_map};
ghost use Rattle.sock_addrs.specs.Sockaddrs.{inet_sockaddr, mask_sockaddr};
ghost use Rattle.route_msgs.specs.AddrInfo.{bit_of, bytes_or_none, gate_sockaddr};
ghost use Rattle.route_msgs.specs.Pasted.{pasted};

use crate::Sockaddr;
use sock_addrs::{Gate, Inet, write_mask};

// These calls are inlined: a dump puts the addresses of one message after the other, and where one is known to be there
// no test is left.

/// Where the addresses of a message about a route begin, behind its header.
pub const ADDRESSES_OFFSET: usize = 76;

/// Puts bytes into `room` from a place on, and answers where they end.
#[inline(always)]
pub fn put(bytes: &[u8], room: &mut [u8], at: usize) -> usize
    requires { at + length bytes.now ≤ length room.old }
    ensures end { result ≡ at + length bytes.now }
    ensures text { room.new ≡ pasted at bytes.now room.old }
{
    let end = at + bytes.len();
    room[at..end].copy_from_slice(bytes);
    end
}

/// Puts an IPv4 address into `room` from a place on, in 16 bytes, and answers where it ends.
#[inline(always)]
pub fn put_inet(address: Inet, room: &mut [u8], at: usize) -> usize
    requires { at + 16 ≤ length room.old }
    ensures end { result ≡ at + 16 }
    ensures text { room.new ≡ pasted at (inet_sockaddr address) room.old }
{
    put(Sockaddr::inet(address).as_bytes(), room, at)
}

/// Puts a gateway or an interface's address into `room` from a place on, where there is one, and answers where it ends.
#[inline(always)]
pub fn put_gate(gate: &Option<Gate>, room: &mut [u8], at: usize) -> usize
    requires { at + 32 ≤ length room.old }
    ensures end { result ≡ at + length (bytes_or_none (option_map gate_sockaddr gate.now)) }
    ensures most { result ≤ at + 32 }
    ensures text { room.new ≡ pasted at (bytes_or_none (option_map gate_sockaddr gate.now)) room.old }
{
    match gate {
        Some(Gate::Inet(address)) => put_inet(*address, room, at),
        Some(Gate::Link(link)) => put(Sockaddr::link(*link).as_bytes(), room, at),
        None => at,
    }
}

/// Puts the mask of so many bits into `room` from a place on, where there is one, and answers where it ends.
#[inline(always)]
pub fn put_mask(bits: Option<u8>, room: &mut [u8], at: usize) -> usize
    requires bits { IfSome bits (λ bits. bits ≤ 32) }
    requires room { at + 8 ≤ length room.old }
    ensures end { result ≡ at + length (bytes_or_none (option_map mask_sockaddr bits)) }
    ensures most { result ≤ at + 8 }
    ensures text { room.new ≡ pasted at (bytes_or_none (option_map mask_sockaddr bits)) room.old }
{
    match bits {
        Some(bits) => at + write_mask(bits, &mut room[at..]),
        None => at,
    }
}

/// `bit` where there is a gateway or an interface's address, and otherwise 0: what it adds to the addrs field.
#[inline(always)]
pub fn gate_bit(gate: &Option<Gate>, bit: u32) -> u32
    ensures { result ≡ bit_of bit (option_map gate_sockaddr gate.now) }
{
    if gate.is_some() { bit } else { 0 }
}

/// `bit` where there is a mask, which has so many bits, and otherwise 0: what it adds to the addrs field.
#[inline(always)]
pub fn mask_bit(bits: Option<u8>, bit: u32) -> u32
    ensures { result ≡ bit_of bit (option_map mask_sockaddr bits) }
{
    if bits.is_some() { bit } else { 0 }
}
