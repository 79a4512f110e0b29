//! How many routes there are of each rank.
ghost use Rattle.std.specs.Prelude.{◌≡◌, ℕ, ◌-◌, ◌^◌, ◌<◌, ◌≤◌, ◌↔◌, IsTrue};
ghost use Rattle.mask_table.specs.Counts.{count_of, AreNone, HasOneMore};
ghost use Rattle.mask_table.specs.RankSets.{HasRank};

use crate::{Rank, Ranks};
use std::marker::Model;

/// How many routes are held of each rank. A contract sees the numbers as a list, by rank.
#[derive(Drop)]
pub struct Counts {
    by_rank: [u64; 34],
    /// The ranks of which there are any.
    held: Ranks,
}

impl Model for Counts {
    ghost use Rattle.std.specs.Prelude.{ℕ, List};
    ghost use Rattle.mask_table.specs.Held.{AreHeld};

    ghost Value = { List ℕ };

    ghost view = { λ c. c.by_rank };

    ghost invariant = { λ c. AreHeld c.held c.by_rank };
}

impl Counts {
    /// No route of any rank.
    pub fn new() -> Counts
        ensures { AreNone result }
    {
        Counts {
            by_rank: [0; 34],
            held: Ranks::none(),
        }
    }

    /// A route of this rank has been added. Fewer than 2^64 - 1 of the rank were held before.
    pub fn added(&mut self, rank: Rank)
        requires { count_of rank self.old < 2 ^ 64 - 1 }
        ensures { HasOneMore rank self.old self.new }
    {
        self.by_rank[usize::from(rank.number())] += 1;
        self.held = self.held.with(rank);
    }

    /// A route of this rank has been dropped. One was held before.
    pub fn dropped(&mut self, rank: Rank)
        requires { 0 < count_of rank self.old }
        ensures { HasOneMore rank self.new self.old }
    {
        self.by_rank[usize::from(rank.number())] -= 1;
        if self.by_rank[usize::from(rank.number())] == 0 {
            self.held = self.held.without(rank);
        }
    }

    /// Whether a route of this rank is held: more were added than dropped.
    pub fn has(&self, rank: Rank) -> bool
        ensures { IsTrue result ↔ (0 < count_of rank self.now) }
    {
        self.by_rank[usize::from(rank.number())] != 0
    }

    /// The ranks of which a route is held.
    #[inline(always)]
    pub fn ranks(&self) -> Ranks
        ensures { (rank : ℕ) → rank ≤ 33 → HasRank result rank ↔ (0 < count_of rank self.now) }
    {
        self.held
    }
}
