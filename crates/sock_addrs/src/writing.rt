ghost use Rattle.std.specs.Prelude.{◌≡◌, ◌≤◌, ◌++◌, length, drop, min};
ghost use Rattle.sock_addrs.specs.Sockaddrs.{inet_sockaddr, mask_number, mask_sockaddr};

use crate::{Inet, Link};

/// Writes the address as a `struct sockaddr_in` of 16 bytes at the front of `out`: port 0, the address highest byte
/// first, and zeros. Answers the bytes used.
pub fn write_inet(address: Inet, out: &mut [u8]) -> usize
    requires { length (inet_sockaddr address) ≤ length out.old }
    ensures used { result ≡ length (inet_sockaddr address) }
    ensures sockaddr { out.new ≡ inet_sockaddr address ++ drop (length (inet_sockaddr address)) out.old }
{
    let [a, b, c, d] = address.number().to_be_bytes();
    put(&[16, 2, 0, 0, a, b, c, d, 0, 0, 0, 0, 0, 0, 0, 0], out)
}

/// Writes the link-layer address as it stands at the front of `out`. Answers the bytes used, 8 to 32.
pub fn write_link(link: Link, out: &mut [u8]) -> usize
    requires { length link ≤ length out.old }
    ensures used { result ≡ length link }
    ensures sockaddr { out.new ≡ link ++ drop (length link) out.old }
{
    put(link.as_bytes(), out)
}

/// Writes the mask of so many bits at the front of `out`: the length up to the last byte that has a one, no family,
/// and the mask highest byte first, 8 bytes in all; the mask of no bit is four zeros. A mask has at most 32 bits, and
/// one of more is written as that of 32. Answers the bytes used.
pub fn write_mask(prefix: u8, out: &mut [u8]) -> usize
    requires { length (mask_sockaddr (min prefix 32)) ≤ length out.old }
    ensures used { result ≡ length (mask_sockaddr (min prefix 32)) }
    ensures sockaddr { out.new ≡ mask_sockaddr (min prefix 32)
        ++ drop (length (mask_sockaddr (min prefix 32))) out.old }
{
    let prefix = prefix.min(32);
    if prefix == 0 {
        return put(&[0; 4], out);
    }
    let [a, b, c, d] = mask_bits(prefix).to_be_bytes();
    put(&[4 + prefix.div_ceil(8), 0, 0, 0, a, b, c, d], out)
}

/// The mask of so many bits as a number.
pub(crate) fn mask_bits(prefix: u8) -> u32
    requires { prefix ≤ 32 }
    ensures { result ≡ mask_number prefix }
{
    let clear = 1u64 << (32 - prefix);
    ((1u64 << 32) - clear) as u32
}

/// Writes these bytes at the front of `out`. Answers how many they are.
fn put(sockaddr: &[u8], out: &mut [u8]) -> usize
    requires { length sockaddr.now ≤ length out.old }
    ensures used { result ≡ length sockaddr.now }
    ensures sockaddr { out.new ≡ sockaddr.now ++ drop (length sockaddr.now) out.old }
{
    out[..sockaddr.len()].copy_from_slice(sockaddr);
    sockaddr.len()
}
