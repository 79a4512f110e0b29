//! Who tells which pair an entry is of.
ghost use Rattle.std.specs.Prelude.{◌≡◌, ℕ, ◌+◌};

use crate::entry::{Entry, Pair};
use crate::homes::pair_of;
use radix_nodes::{Nodes, Visits};
use std::snapshot::Snapshot;

/// Tells the pairs of entries: the entries themselves, or the rooms that they name. There are no others, since what is in
/// an entry is seen here alone.
pub trait Rooms<P: Pair> {
    ghost use Rattle.room_index.specs.Filed.{Filed};

    // of this entry it tells the pair
    ghost Knows: { Self → Filed → Type 0 };

    // and does so with a counter of this turn
    ghost IsTurn: { Self → ℕ → Type 0 };

    // how many visits that takes
    ghost looks: { ℕ };

    /// The pair of an entry.
    fn pair(&self, entry: &Entry<P>, visits: &mut Visits) -> u64
        requires known { Knows self.now entry.now }
        requires turn { IsTurn self.now visits.old.turn }
        ensures pair { result ≡ entry.now.pair }
        ensures looks { visits.new ≡ record visits.old { count = visits.old.count + looks } };
}

/// The room of an entry has its key and its rank, as a leaf.
impl<V> Rooms<Snapshot<u64>> for Nodes<V> {
    ghost use Rattle.room_index.specs.Filed.{IsLeafOf};

    ghost Knows = { λ n e. IsLeafOf n.lodged e };

    ghost IsTurn = { λ n turn. turn ≡ n.turn };

    ghost looks = { 1 };

    #[inline(always)]
    fn pair(&self, entry: &Entry<Snapshot<u64>>, visits: &mut Visits) -> u64 {
        let leaf = self.links(entry.room, visits).leaf();
        pair_of(leaf.key, leaf.rank)
    }
}
