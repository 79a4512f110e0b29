ghost use Rattle.std.specs.Prelude.{◌≡◌, ◌+◌, ◌≤◌, ◌++◌, ℕ, length};
ghost use Rattle.sock_addrs.specs.Padded.{padded_to};
ghost use Rattle.std.specs.Option.{SomeIff};

use crate::families::AF_LINK;
use crate::{Name, round};
use arrayvec::ArrayVec;
use std::marker::Model;

/// A link-layer address as a message writes it (`struct sockaddr_dl` of <net/if_dl.h>): 8 to 32 bytes, of which byte 0
/// is their number and byte 1 the family, 18. A contract sees the bytes.
#[derive(Clone, Copy, Debug, PartialEq, Eq)]
pub struct Link {
    bytes: [u8; 32],
}

impl Model for Link {
    ghost use Rattle.std.specs.Prelude.{ℕ, List};

    ghost Value = { List ℕ };

    ghost use Rattle.sock_addrs.specs.Padded.{padded_to};
    ghost use Rattle.sock_addrs.specs.Link.{link_in, AreLinkCells, link_again};

    ghost view = { λ a. link_in a.bytes };

    ghost invariant = { λ a. AreLinkCells a.bytes };

    ghost inverse = { λ sockaddr. record { bytes = padded_to 32 sockaddr } };

    ghost inverse_ok = { λ a h. link_again a h };
}

impl Link {
    ghost use Rattle.sock_addrs.specs.Link.{IsLinkSockaddr, index_in, interface_link};

    /// The address with these bytes, or `None` where they are none.
    pub fn new(sockaddr: &[u8]) -> Option<Link>
        ensures { SomeIff result (IsLinkSockaddr sockaddr.now) sockaddr.now }
    {
        match sockaddr {
            [length, AF_LINK, ..]
                if (8..=32).contains(length) && usize::from(*length) == sockaddr.len() => {
                Some(Link::of(sockaddr))
            }
            _ => None,
        }
    }

    /// The address with these bytes.
    pub(crate) fn of(sockaddr: &[u8]) -> Link
        requires { IsLinkSockaddr sockaddr.now }
        ensures { result ≡ sockaddr.now }
    {
        let mut bytes = [0; 32];
        bytes[..sockaddr.len()].copy_from_slice(sockaddr);
        Link { bytes }
    }

    /// Its bytes, 8 to 32 of them.
    pub fn as_bytes(&self) -> &[u8]
        ensures bytes { result.now ≡ self.now }
        ensures link { IsLinkSockaddr self.now }
    {
        &self.bytes[..self.bytes[0] as usize]
    }

    /// The link-layer address of the interface with this number, type (of <net/if_types.h>) and name, whose own address
    /// has these bytes, at most 8: with no selector, and zeros behind to whole words of four bytes, at least 20 bytes.
    pub fn of_interface(index: u16, type_number: u8, name: Name, address: &[u8]) -> Link
        requires { length address.now ≤ 8 }
        ensures { result ≡ interface_link index type_number name address.now }
    {
        let name = name.as_bytes();
        let size = round((8 + name.len() + address.len()) as u8).max(20);
        let [high, low] = index.to_be_bytes();
        let head = [
            size as u8,
            AF_LINK,
            high,
            low,
            type_number,
            name.len() as u8,
            address.len() as u8,
            0,
        ];
        Link::of(&joined(&head, name, address, size))
    }

    /// The number of the interface that stands in it.
    pub fn index(&self) -> u16
        ensures { result ≡ index_in self.now }
    {
        u16::from_be_bytes([self.bytes[2], self.bytes[3]])
    }
}

/// The parts one after another, with zeros behind them up to `size` bytes.
fn joined(head: &[u8], name: &[u8], address: &[u8], size: usize) -> ArrayVec<u8, 32>
    requires fit { length head.now + length name.now + length address.now ≤ size }
    requires most { size ≤ 32 }
    ensures { result.items ≡ padded_to size (head.now ++ name.now ++ address.now) }
{
    let mut bytes = ArrayVec::new();
    bytes.try_extend_from_slice(head).unwrap();
    bytes.try_extend_from_slice(name).unwrap();
    bytes.try_extend_from_slice(address).unwrap();
    let zeros = size - bytes.len();
    bytes.try_extend_from_slice(&[0; 32][..zeros]).unwrap();
    bytes
}
