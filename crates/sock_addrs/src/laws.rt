//! Laws of sockaddrs: each function does nothing, and its contract is the law.

ghost use Rattle.std.specs.Prelude.{◌≡◌, ◌∷◌, [], map};
ghost use Rattle.sock_addrs.specs.Link.{IsLinkSockaddr};
ghost use Rattle.sock_addrs.specs.declared.bad_addr.BadAddr.TheVariants.{NotContiguous};
ghost use Rattle.sock_addrs.specs.Reading.{InetSockaddrIsRead, IsReadOnce, LinkSockaddrIsRead, MaskSockaddrIsRead, ReadLinkIsLinkSockaddr, ReadsGate, ReadsInet, ReadsMask, ComputedIsRead, read_gate_of, read_inet_of, read_mask_of};
ghost use Rattle.sock_addrs.specs.Rounding.{RoundingIsLeast, rounded};
ghost use Rattle.sock_addrs.specs.Sockaddrs.{MaskIsOnesThenZeros, MaskSockaddrsDiffer, inet_sockaddr, mask_sockaddr};

use crate::families::{AF_INET, AF_LINK};
use crate::flags::{RTF_GATEWAY, RTF_HOST};

/// The room of an address is the least multiple of 4 that is at least its length byte, and at least 4.
pub fn rounding_is_least()
    ensures { RoundingIsLeast }
{}

/// What is written of an IPv4 address is read as that address, whatever follows it.
pub fn inet_sockaddr_is_read()
    ensures { InetSockaddrIsRead }
{}

/// A link-layer address is read as itself, whatever follows it.
pub fn link_sockaddr_is_read()
    ensures { LinkSockaddrIsRead }
{}

/// What is written of a mask is read as that mask, whatever follows it.
pub fn mask_sockaddr_is_read()
    ensures { MaskSockaddrIsRead }
{}

/// The number of a mask has ones in front, as many as the mask has bits, and zeros behind them.
pub fn mask_is_ones_then_zeros()
    ensures { MaskIsOnesThenZeros }
{}

/// Two masks that are written alike are one.
pub fn mask_sockaddrs_differ()
    ensures { MaskSockaddrsDiffer }
{}

/// What is read as a link-layer address has the length that it says, and its family.
pub fn read_link_is_link_sockaddr()
    ensures { ReadLinkIsLinkSockaddr }
{}

/// Each sockaddr is read as one address or refused for one fault, as an IPv4 address, as a gateway and as a mask.
pub fn each_sockaddr_is_read_once()
    ensures inet { IsReadOnce ReadsInet }
    ensures gate { IsReadOnce ReadsGate }
    ensures mask { IsReadOnce ReadsMask }
{}

/// What is computed of a sockaddr is how it is read: as an IPv4 address, as a gateway and as a mask.
pub fn computed_is_read()
    ensures inet { ComputedIsRead ReadsInet read_inet_of }
    ensures gate { ComputedIsRead ReadsGate read_gate_of }
    ensures mask { ComputedIsRead ReadsMask read_mask_of }
{}

/// The families of addresses, by their numbers in <sys/socket.h>.
pub fn families_by_number()
    ensures inet { AF_INET ≡ 2 }
    ensures link { AF_LINK ≡ 18 }
{}

/// The flags of a route by which a search goes, by their numbers in <net/route.h>.
pub fn flags_by_number()
    ensures gateway { RTF_GATEWAY ≡ 0x2 }
    ensures host { RTF_HOST ≡ 0x4 }
{}

/// Rounding, worked out.
pub fn rounding_by_example()
    ensures { map rounded (0 ∷ 1 ∷ 4 ∷ 5 ∷ 16 ∷ 255 ∷ []) ≡ 4 ∷ 4 ∷ 4 ∷ 8 ∷ 16 ∷ 256 ∷ [] }
{}

/// The sockaddrs of 10.9.9.9 and of four masks, worked out.
pub fn sockaddrs_by_example()
    ensures inet { inet_sockaddr 0x0a09_0909 ≡ 0x10 ∷ 0x02 ∷ 0 ∷ 0 ∷ 0x0a ∷ 0x09 ∷ 0x09 ∷ 0x09 ∷ 0 ∷ 0 ∷ 0 ∷ 0 ∷ 0
        ∷ 0 ∷ 0 ∷ 0 ∷ [] }
    ensures no_bit { mask_sockaddr 0 ≡ 0 ∷ 0 ∷ 0 ∷ 0 ∷ [] }
    ensures one_byte { mask_sockaddr 8 ≡ 5 ∷ 0 ∷ 0 ∷ 0 ∷ 0xff ∷ 0 ∷ 0 ∷ 0 ∷ [] }
    ensures one_bit_more { mask_sockaddr 9 ≡ 6 ∷ 0 ∷ 0 ∷ 0 ∷ 0xff ∷ 0x80 ∷ 0 ∷ 0 ∷ [] }
    ensures all_bits { mask_sockaddr 32 ≡ 8 ∷ 0 ∷ 0 ∷ 0 ∷ 0xff ∷ 0xff ∷ 0xff ∷ 0xff ∷ [] }
{}

/// Sockaddrs as they are read, worked out: a mask whose length leaves out its second byte of ones, one whose ones
/// don't come first, and the link-layer address of an interface `le0`.
pub fn reading_by_example()
    ensures trimmed { ReadsMask (5 ∷ 0 ∷ 0 ∷ 0 ∷ 0xff ∷ 0xff ∷ 0 ∷ 0 ∷ []) (Ok 8) }
    ensures scattered { ReadsMask (7 ∷ 0 ∷ 0 ∷ 0 ∷ 0xff ∷ 0 ∷ 0xff ∷ 0 ∷ []) (Err NotContiguous) }
    ensures link { IsLinkSockaddr (0x14 ∷ 0x12 ∷ 0 ∷ 1 ∷ 6 ∷ 3 ∷ 6 ∷ 0 ∷ 0x6c ∷ 0x65 ∷ 0x30 ∷ 0x08 ∷ 0 ∷ 0x20 ∷ 1
        ∷ 2 ∷ 3 ∷ 0 ∷ 0 ∷ 0 ∷ []) }
{}
