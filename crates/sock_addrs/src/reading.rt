//! Sockaddrs are read: IPv4 addresses, gateways and masks, each with the first fault.
ghost use Rattle.std.specs.Prelude.{◌≡◌, ◌≢◌, ◌≤◌, ℕ, slice_index, IfOk, IfErr};
ghost use Rattle.std.specs.Option.{MatchOption};
ghost use Rattle.sock_addrs.specs.Reading.{IsShort, IsWhole, ReadsGate, ReadsInet, ReadsMask, length_byte, read_gate_of, read_inet_of, read_mask_of};
ghost use Rattle.sock_addrs.specs.Sockaddrs.{family, mask_number};

use crate::families::{AF_INET, AF_LINK};
use crate::writing::mask_bits;
use crate::{BadAddr, Gate, Inet, Link};

/// The family of the address that begins here: byte 1, or 0 where the length byte is 0 or 1 or there are fewer
/// than two bytes.
pub fn family_of(sockaddr: &[u8]) -> u8
    ensures { result ≡ family sockaddr.now }
{
    match sockaddr {
        [length, family, ..] if *length > 1 => *family,
        _ => 0,
    }
}

/// The length byte of an address whose bytes are all there. `Short` where there is no byte, or there are fewer than
/// it says.
fn length_of(sockaddr: &[u8]) -> Result<u8, BadAddr>
    ensures length { IfOk result (λ n. IsWhole sockaddr.now × (n ≡ length_byte sockaddr.now)) }
    ensures short { IfErr result (λ e. (e ≡ BadAddr.Short) × IsShort sockaddr.now) }
{
    match sockaddr {
        [length, ..] if usize::from(*length) <= sockaddr.len() => Ok(*length),
        _ => Err(BadAddr::Short),
    }
}

/// Reads the IPv4 address at the front of `sockaddr`: bytes 4 to 7, the highest first. Whatever follows it, its port
/// and the bytes behind the address are not looked at.
///
/// Refuses with the first that holds: `Short` where there are fewer bytes than the length byte says, or none;
/// `Family` where it is not 2; `Length` where the length byte is not 8 to 16.
pub fn read_inet(sockaddr: &[u8]) -> Result<Inet, BadAddr>
    ensures reads { ReadsInet sockaddr.now result }
    ensures computed { result ≡ read_inet_of sockaddr.now }
{
    let length = length_of(sockaddr)?;
    if family_of(sockaddr) != AF_INET {
        return Err(BadAddr::Family);
    }
    if !(8..=16).contains(&length) {
        return Err(BadAddr::Length);
    }
    Ok(Inet([sockaddr[4], sockaddr[5], sockaddr[6], sockaddr[7]]))
}

/// Reads the gateway at the front of `sockaddr`: an IPv4 address as `read_inet` does, or a link-layer address, of
/// which all bytes are kept that the length byte counts.
///
/// Refuses with the first that holds: `Short` where there are fewer bytes than the length byte says, or none;
/// `Family` where it is neither 2 nor 18; `Length` where the length byte is not 8 to 16, or of a link-layer address
/// not 8 to 32.
pub fn read_gate(sockaddr: &[u8]) -> Result<Gate, BadAddr>
    ensures reads { ReadsGate sockaddr.now result }
    ensures computed { result ≡ read_gate_of sockaddr.now }
{
    if family_of(sockaddr) != AF_LINK {
        let address = read_inet(sockaddr)?;
        return Ok(Gate::Inet(address));
    }
    let length = length_of(sockaddr)?;
    if !(8..=32).contains(&length) {
        return Err(BadAddr::Length);
    }
    Ok(Gate::Link(Link::of(&sockaddr[..usize::from(length)])))
}

/// Reads the mask at the front of `sockaddr` as the number of its bits: bytes 4 to 7, the highest first, of which
/// those that the length byte doesn't count are zero. Its family is not looked at.
///
/// Refuses with the first that holds: `Short` where there are fewer bytes than the length byte says, or none;
/// `Length` where the length byte is above 16; `NotContiguous` where the bits are not ones followed by zeros.
pub fn read_mask(sockaddr: &[u8]) -> Result<u8, BadAddr>
    ensures reads { ReadsMask sockaddr.now result }
    ensures computed { result ≡ read_mask_of sockaddr.now }
{
    let length = length_of(sockaddr)?;
    if length > 16 {
        return Err(BadAddr::Length);
    }
    let whole = &sockaddr[..usize::from(length)];
    let mask = u32::from_be_bytes([
        byte_at(whole, 4),
        byte_at(whole, 5),
        byte_at(whole, 6),
        byte_at(whole, 7),
    ]);
    prefix_of(mask).ok_or(BadAddr::NotContiguous)
}

/// A byte, or 0 past the end.
fn byte_at(bytes: &[u8], at: usize) -> u8
    ensures { result ≡ slice_index bytes.now at }
{
    bytes.get(at).copied().unwrap_or(0)
}

/// How many ones the mask has where all of them come first.
fn prefix_of(mask: u32) -> Option<u8>
    ensures { MatchOption result ((p : ℕ) → p ≤ 32 → mask ≢ mask_number p) (λ p. (p ≤ 32) × (mask ≡ mask_number p)) }
{
    let ones = mask.leading_ones() as u8;
    if mask_bits(ones) != mask {
        return None;
    }
    Some(ones)
}
