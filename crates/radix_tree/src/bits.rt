//! The bits of addresses.
ghost use Rattle.std.specs.Prelude.{◌≡◌, ◌≤◌, ◌==◌, MatchOption};
ghost use Rattle.radix_tree.specs.Bounds.{last_bit};
ghost use Rattle.radix_tree.specs.Growth.{Differs};
ghost use Rattle.radix_tree.specs.Tree.{bit_at};

use sock_addrs::Inet;

/// Whether a bit of an address is 1. The highest one is bit 0.
#[tactic(auto, unfolding(crate::specs::Tree::bit_at))]
pub(crate) fn is_one(address: Inet, bit: u8) -> bool
    requires { bit ≤ last_bit }
    ensures { result ≡ (bit_at bit address == 1) }
{
    (address.number() >> (31 - bit)) % 2 == 1
}

/// The first bit at which two keys differ, or `None` where they are the same.
pub(crate) fn first_difference(key: Inet, other: Inet) -> Option<u8>
    ensures { MatchOption result (key ≡ other) (λ bit. Differs key other bit) }
{
    let bit = (key.number() ^ other.number()).leading_zeros();
    if bit < 32 { Some(bit as u8) } else { None }
}
