ghost use Rattle.std.specs.Prelude.{◌≡◌, ◌≤◌, ◌-◌};
ghost use Rattle.mask_table.specs.Agreeing.{agrees as agrees_by, masked as masked_by};
ghost use Rattle.mask_table.specs.Ranks.{mask_of, rank_of};

use crate::Prefix;
use sock_addrs::Inet;
use std::marker::Model;

/// How narrow a route is: 0 to 32 for a mask of that many bits, or 33 for a route without a mask, which is of one host.
/// A contract sees the number.
#[derive(Clone, Copy, Debug, PartialEq, Eq, PartialOrd, Ord)]
pub struct Rank {
    n: u8,
}

impl Model for Rank {
    ghost use Rattle.std.specs.Prelude.{ℕ, ◌≤◌};

    ghost Value = { ℕ };

    ghost view = { λ r. r.n };

    ghost invariant = { λ r. r.n ≤ 33 };

    ghost inverse = { λ n. record { n = n } };
}

impl Rank {
    /// The rank with this number.
    pub fn new(n: u8) -> Rank
        requires { n ≤ 33 }
        ensures { result ≡ n }
    {
        Rank { n }
    }

    /// The rank of a route with a mask of this length.
    pub fn of(prefix: Prefix) -> Rank
        ensures { result ≡ prefix }
    {
        Rank { n: prefix.bits() }
    }

    /// The rank of a route without a mask.
    pub fn host() -> Rank
        ensures { result ≡ 33 }
    {
        Rank { n: 33 }
    }

    /// The rank of a route with this mask, or without one.
    pub fn of_mask(mask: Option<Prefix>) -> Rank
        ensures { result ≡ rank_of mask }
    {
        mask.map_or(Rank::host(), Rank::of)
    }

    /// The mask of a route of this rank, or `None` where it has none.
    pub fn mask(self) -> Option<Prefix>
        ensures { result ≡ mask_of self }
    {
        Prefix::new(self.n)
    }

    /// Its number.
    pub fn number(self) -> u8
        ensures number { result ≡ self }
        ensures most { self ≤ 33 }
    {
        self.n
    }

    /// How many of an address's bits the rank leaves free: none without a mask.
    fn free_bits(self) -> u32
        ensures { result ≡ 32 - self }
    {
        32u32.saturating_sub(u32::from(self.n))
    }
}

/// The address with all bits past the rank cleared.
pub fn masked(address: Inet, rank: Rank) -> Inet
    ensures number { result ≡ masked_by rank address }
    ensures clear { masked_by rank result ≡ result }
{
    let free = rank.free_bits();
    let number = u64::from(address.number()) >> free << free;
    Inet::new(number as u32)
}

/// Whether the address agrees with a route's key at its rank: it is the key where the rank is 33, and otherwise its
/// first bits, as many as the rank says, are the key's.
pub fn agrees(key: Inet, rank: Rank, address: Inet) -> bool
    ensures { result ≡ agrees_by rank key address }
{
    let free = rank.free_bits();
    u64::from(key.number()) >> free == u64::from(address.number()) >> free
}
