//! What a table holds.
ghost use Rattle.std.specs.Prelude.{◌≡◌};
ghost use Rattle.mask_table.specs.Agreeing.{masked};
ghost use Rattle.radix_tree.specs.Table.{IsRoute};

use mask_table::Rank;
use sock_addrs::Inet;

/// A route as a table holds it: its key, which has no bit past its rank, its rank, and all else of it.
#[derive(Drop)]
pub struct Entry<V> {
    /// The address of its network, with no bit past the rank.
    pub key: Inet,
    /// The length of its mask, or 33 where it has none.
    pub rank: Rank,
    /// All else of it.
    pub value: V,
}

impl<V> Entry<V> {
    /// The route of these parts, whose key has no bit past its rank.
    pub(crate) fn of(key: Inet, rank: Rank, value: V) -> Entry<V>
        requires { masked rank key ≡ key }
        ensures entry { result ≡ record { key = key; rank = rank; value = value } }
        ensures route { IsRoute result }
    {
        Entry { key, rank, value }
    }
}
