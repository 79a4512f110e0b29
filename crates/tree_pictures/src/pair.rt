//! What a picture wants of a route.
ghost use Rattle.std.specs.Prelude.{◌≡◌};

use mask_table::Rank;
use sock_addrs::Inet;

/// A route by its key and its rank.
#[derive(Clone, Copy, Debug, PartialEq, Eq)]
pub struct Pair {
    /// The address of its network, or of its host.
    pub key: Inet,
    /// The length of its mask, or 33 where it has none.
    pub rank: Rank,
}

/// The default route, which the unused places of a vector hold.
impl Default for Pair {
    ghost is_default = { λ p. p ≡ record { key = 0; rank = 0 } };

    fn default() -> Pair {
        Pair {
            key: Inet::new(0),
            rank: Rank::new(0),
        }
    }
}
