//! Sets of ranks.
ghost use Rattle.std.specs.Prelude.{◌≡◌, ℕ, ◌+◌, ◌⊎◌, ◌≤◌, ◌↔◌};
ghost use Rattle.mask_table.specs.RankSets.{HasRank, IsGreatestBelow};

use crate::Rank;
use std::marker::Model;

/// A set of ranks. A contract sees a number that has a bit of each (`HasRank`).
#[derive(Clone, Copy, Debug, PartialEq, Eq)]
pub struct Ranks {
    /// The lowest bit is that of the greatest rank.
    bits: u64,
}

impl Model for Ranks {
    ghost use Rattle.std.specs.Prelude.{ℕ};
    ghost use Rattle.mask_table.specs.RankSets.{AreRanks};

    ghost Value = { ℕ };

    ghost view = { λ r. r.bits };

    ghost invariant = { λ r. AreRanks r.bits };

    ghost inverse = { λ n. record { bits = n } };
}

impl Ranks {
    /// No rank.
    pub fn none() -> Ranks
        ensures { (r : ℕ) → HasRank result r → ⊥ }
    {
        Ranks { bits: 0 }
    }

    /// Each rank that there is.
    pub fn all() -> Ranks
        ensures { (r : ℕ) → r ≤ 33 → HasRank result r }
    {
        Ranks {
            bits: (1 << 34) - 1,
        }
    }

    /// These and one more.
    #[inline(always)]
    pub fn with(self, rank: Rank) -> Ranks
        ensures { (r : ℕ) → HasRank result r ↔ ((r ≡ rank) ⊎ HasRank self r) }
    {
        Ranks {
            bits: self.bits | 1 << place_of(rank),
        }
    }

    /// These but for one.
    #[inline(always)]
    pub fn without(self, rank: Rank) -> Ranks
        ensures { (r : ℕ) → HasRank result r ↔ ((r ≡ rank → ⊥) × HasRank self r) }
    {
        Ranks {
            bits: self.bits & !(1 << place_of(rank)),
        }
    }

    /// Those of either set.
    #[inline(always)]
    pub fn union(self, other: Ranks) -> Ranks
        ensures { (r : ℕ) → HasRank result r ↔ (HasRank self r ⊎ HasRank other r) }
    {
        Ranks {
            bits: self.bits | other.bits,
        }
    }

    /// Those of both sets.
    #[inline(always)]
    pub fn intersection(self, other: Ranks) -> Ranks
        ensures { (r : ℕ) → HasRank result r ↔ (HasRank self r × HasRank other r) }
    {
        Ranks {
            bits: self.bits & other.bits,
        }
    }

    /// The greatest of them that is below this number, or `None` where there is none.
    #[inline(always)]
    pub fn greatest_below(self, number: u8) -> Option<Rank>
        requires { number ≤ 34 }
        ensures { IsGreatestBelow number self result }
    {
        let below = self.bits >> (34 - number);
        if below == 0 {
            return None;
        }
        Some(Rank::new(number - 1 - below.trailing_zeros() as u8))
    }
}

/// Where the bit of a rank stands.
#[inline(always)]
fn place_of(rank: Rank) -> u32
    ensures place { result + rank ≡ 33 }
{
    33 - u32::from(rank.number())
}
