ghost use Rattle.std.specs.Prelude.{◌≡◌, ◌≤◌, length};
ghost use Rattle.std.specs.Option.{SomeIff};

use std::marker::Model;

/// The link-layer address of an interface: at most 8 bytes. A contract sees the bytes.
#[derive(Clone, Copy, Debug, PartialEq, Eq)]
pub struct LinkAddress {
    len: u8,
    octets: [u8; 8],
}

impl Model for LinkAddress {
    ghost use Rattle.std.specs.Prelude.{ℕ, List, take, length};

    ghost Value = { List ℕ };

    ghost use Rattle.sock_addrs.specs.Padded.{IsPadded, padded_to};
    ghost use Rattle.if_addrs.specs.LinkAddress.{link_address_again};

    ghost view = { λ a. take a.len a.octets };

    ghost invariant = { λ a. IsPadded 8 a.len a.octets };

    ghost inverse = { λ bytes. record { len = length bytes; octets = padded_to 8 bytes } };

    ghost inverse_ok = { λ a h. link_address_again a h };
}

impl LinkAddress {
    /// The address with these bytes, or `None` where they are more than 8.
    pub fn new(bytes: &[u8]) -> Option<LinkAddress>
        ensures { SomeIff result (length bytes.now ≤ 8) bytes.now }
    {
        let len = bytes.len();
        if len > 8 {
            return None;
        }
        let mut octets = [0; 8];
        octets[..len].copy_from_slice(bytes);
        Some(LinkAddress {
            len: len as u8,
            octets,
        })
    }

    /// Its bytes, at most 8 of them.
    pub fn as_slice(&self) -> &[u8]
        ensures bytes { result.now ≡ self.now }
        ensures most { length self.now ≤ 8 }
    {
        &self.octets[..self.len as usize]
    }
}
