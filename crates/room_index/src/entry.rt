//! What stands in a place: a pair of a key and a rank, by its number, and its room.
ghost use Rattle.std.specs.Prelude.{◌≡◌, ℕ};

use radix_nodes::Id;
use std::marker::Model;
use std::snapshot::Snapshot;

/// What an entry has of its pair: the pair's number, which is 64 times the key, and the rank; or, where its room tells
/// that one, nothing but what clauses see.
pub trait Pair: Drop {
    ghost number: { Self → ℕ };

    /// Of the pair of this number.
    fn of(pair: u64) -> Self
        ensures { number result ≡ pair };
}

impl Pair for u64 {
    ghost number = { λ n. n };

    fn of(pair: u64) -> u64 {
        pair
    }
}

impl Pair for Snapshot<u64> {
    ghost number = { λ s. s.value };

    fn of(pair: u64) -> Snapshot<u64> {
        Snapshot::of(&pair)
    }
}

/// A pair's room, and what there is of the pair. A contract sees both, as a `Filed`.
#[derive(Drop)]
pub struct Entry<P: Pair> {
    pub(crate) pair: P,
    pub(crate) room: Id,
}

impl<P: Pair> Model for Entry<P> {
    ghost use Rattle.room_index.specs.Filed.{Filed};

    ghost Value = { Filed };

    ghost view = { λ e. record { pair = P.number e.pair; room = e.room } };
}

impl<P: Pair> Entry<P> {
    /// Of a pair and its room.
    #[inline(always)]
    pub(crate) fn of(pair: u64, room: Id) -> Entry<P>
        ensures { result ≡ record { pair = pair; room = room } }
    {
        Entry {
            pair: P::of(pair),
            room,
        }
    }

    /// Of a pair, without a room yet. It is what free places are filled with.
    #[inline(always)]
    pub(crate) fn ahead(pair: u64) -> Entry<P>
        ensures { result.pair ≡ pair }
    {
        Entry::of(pair, Id::nobody())
    }

    /// The room.
    #[inline(always)]
    pub(crate) fn room(&self) -> Id
        ensures { result ≡ self.now.room }
    {
        self.room
    }
}
