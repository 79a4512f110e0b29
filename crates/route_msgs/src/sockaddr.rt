ghost use Rattle.std.specs.Prelude.{◌≡◌, ◌≤◌, length, ℕ};
ghost use Rattle.sock_addrs.specs.Sockaddrs.{inet_sockaddr, mask_sockaddr};
ghost use Rattle.route_msgs.specs.AddrInfo.{gate_sockaddr, padded};

use sock_addrs::{Gate, Inet, Link, round, write_inet, write_link, write_mask};
use std::marker::Model;

/// An address as it stands in a message: its bytes, and zeros behind them to whole words of four bytes, at most 32
/// bytes in all. A contract sees these bytes.
#[derive(Clone, Copy, Debug, PartialEq, Eq)]
pub struct Sockaddr {
    len: u8,
    bytes: [u8; 32],
}

impl Model for Sockaddr {
    ghost use Rattle.std.specs.Prelude.{ℕ, List, take, length};

    ghost Value = { List ℕ };

    ghost use Rattle.sock_addrs.specs.Padded.{IsPadded, padded_to};
    ghost use Rattle.route_msgs.specs.Sockaddr.{IsSockaddr, sockaddr_again};

    ghost view = { λ t. take t.len t.bytes };

    ghost invariant = { λ t. IsSockaddr (take t.len t.bytes) × IsPadded 32 t.len t.bytes };

    ghost inverse = { λ sockaddr. record { len = length sockaddr; bytes = padded_to 32 sockaddr } };

    ghost inverse_ok = { λ t h. sockaddr_again t h.1 };
}

impl Sockaddr {
    ghost use Rattle.route_msgs.specs.Sockaddr.{IsSockaddr};

    /// An IPv4 address, in 16 bytes.
    #[inline(always)]
    pub fn inet(address: Inet) -> Sockaddr
        ensures sockaddr { result ≡ inet_sockaddr address }
        ensures size { length result ≡ 16 }
    {
        let mut bytes = [0; 32];
        let len = write_inet(address, &mut bytes) as u8;
        Sockaddr { len, bytes }
    }

    /// The mask of so many bits, in 8 bytes, or in 4 where it has no bit.
    pub fn mask(bits: u8) -> Sockaddr
        requires { bits ≤ 32 }
        ensures sockaddr { result ≡ mask_sockaddr bits }
        ensures most { length result ≤ 8 }
    {
        let mut bytes = [0; 32];
        let len = write_mask(bits, &mut bytes) as u8;
        Sockaddr { len, bytes }
    }

    /// A link-layer address, padded with zeros to whole words.
    pub fn link(link: Link) -> Sockaddr
        ensures sockaddr { result ≡ padded link }
        ensures most { length result ≤ 32 }
    {
        let mut bytes = [0; 32];
        write_link(link, &mut bytes);
        let len = round(link.as_bytes()[0]) as u8;
        Sockaddr { len, bytes }
    }

    /// A gateway.
    pub fn gate(gate: Gate) -> Sockaddr
        ensures sockaddr { result ≡ gate_sockaddr gate }
        ensures most { length result ≤ 32 }
    {
        match gate {
            Gate::Inet(address) => Sockaddr::inet(address),
            Gate::Link(link) => Sockaddr::link(link),
        }
    }

    /// Its bytes, padding included, 4 to 32 of them.
    pub fn as_bytes(&self) -> &[u8]
        ensures bytes { result.now ≡ self.now }
        ensures sockaddr { IsSockaddr self.now }
    {
        &self.bytes[..self.len as usize]
    }
}
