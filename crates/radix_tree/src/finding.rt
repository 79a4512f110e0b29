//! How a table finds the room of a route. That of a key and a rank is found by the index, while that is whole; that of
//! the best route of an address likewise, where there are more than 256 routes. Else both are found by the tree.
ghost use Rattle.std.specs.Prelude.{◌≡◌, ◌≤◌, ℕ, Some, true};
ghost use Rattle.mask_table.specs.Agreeing.{masked as masked_by};
ghost use Rattle.mask_table.specs.RankSets.{HasRank};
ghost use Rattle.radix_nodes.specs.declared.id.Id.{Id as IdName};
ghost use Rattle.radix_tree.specs.Bounds.{ranks, asked_reads, pair_reads};
ghost use Rattle.radix_tree.specs.Index.{Indexes, pair};
ghost use Rattle.radix_tree.specs.Kept.{AreCounted};
ghost use Rattle.radix_tree.specs.Reads.{Reads};
ghost use Rattle.radix_tree.specs.Searches.{Tells, Finds, Best, HasPair, In};
ghost use Rattle.radix_tree.specs.Whole.{IsWhole, shown};
ghost use Rattle.room_index.specs.Names.{Names};

use crate::backtracking::{best_room, room_of};
use crate::index::Index;
use mask_table::{Counts, Rank, Ranks, masked};
use radix_nodes::{Id, Node, Nodes, Visits};
use sock_addrs::Inet;

/// After so many ranks that no route of the address has, it is looked which are near. Mostly the longest ranks have
/// one.
const IN_VAIN: u8 = 1;

/// The route of a table with this key and this rank, by its room.
pub(crate) fn find_room<V>(
    nodes: &Nodes<V>,
    index: &Index,
    root: Node,
    key: Inet,
    rank: Rank,
    visits: &mut Visits,
) -> Option<Id>
    requires whole { IsWhole nodes.now.lodged root }
    requires indexed { Indexes index.now nodes.now.lodged }
    requires turn { visits.old.turn ≡ nodes.now.turn }
    ensures found { (w : IsWhole nodes.now.lodged root) → Tells (Finds (HasPair key rank) (In w.part)) result }
    ensures visits { Reads visits.old visits.new pair_reads }
{
    if index.is_whole() {
        index.find(key, rank, nodes, visits)
    } else {
        room_of(nodes, root, key, rank, visits)
    }
}

/// The best route of an address, by its room. In a small table a way through the tree takes fewest steps.
pub(crate) fn find_best<V>(
    nodes: &Nodes<V>,
    index: &Index,
    counts: &Counts,
    root: Node,
    address: Inet,
    visits: &mut Visits,
) -> Option<Id>
    requires whole { IsWhole nodes.now.lodged root }
    requires indexed { Indexes index.now nodes.now.lodged }
    requires counted { AreCounted counts.now (shown nodes.now.lodged (Some root)) }
    requires turn { visits.old.turn ≡ nodes.now.turn }
    ensures best { (w : IsWhole nodes.now.lodged root) → Tells (Best address 0 ranks (In w.part)) result }
    ensures visits { Reads visits.old visits.new asked_reads }
{
    if index.is_whole() && !index.is_small() {
        best_by_rank(nodes, index, counts, root, address, visits)
    } else {
        best_room(nodes, root, address, visits)
    }
}

/// The best route by the index: it is asked for the address masked by each rank of which there are routes, from the
/// greatest on; and once it was asked in vain, for such alone as routes near the address have. The `ranks` of its body
/// is the set of those that are left, not the number of all ranks, which the contract names so (`specs/Bounds.antt`).
fn best_by_rank<V>(
    nodes: &Nodes<V>,
    index: &Index,
    counts: &Counts,
    root: Node,
    address: Inet,
    visits: &mut Visits,
) -> Option<Id>
    requires whole { IsWhole nodes.now.lodged root }
    requires indexed { Indexes index.now nodes.now.lodged }
    requires all { index.now.whole ≡ true }
    requires counted { AreCounted counts.now (shown nodes.now.lodged (Some root)) }
    requires turn { visits.old.turn ≡ nodes.now.turn }
    ensures best { (w : IsWhole nodes.now.lodged root) → Tells (Best address 0 ranks (In w.part)) result }
    ensures visits { Reads visits.old visits.new asked_reads }
{
    let mut ranks = counts.ranks();
    let mut left = 34;
    let mut asked = 0u8;
    while let Some(rank) = ranks.greatest_below(left) {
        if let Some(room) = index.find(masked(address, rank), rank, nodes, visits) {
            return Some(room);
        }
        left = rank.number();
        asked = asked.saturating_add(1);
        ranks = ranks_left(index, ranks, asked, address, visits);
    }
    None
}

/// The ranks that are left to be asked for, once so many were in vain: after the first of these only such as routes near
/// the address have.
#[inline(always)]
fn ranks_left(index: &Index, ranks: Ranks, asked: u8, address: Inet, visits: &mut Visits) -> Ranks
    ensures kept { (rank : ℕ) (room : IdName) → rank ≤ 33 → Names index.now (pair (masked_by rank address) rank) room
        → HasRank ranks rank
        → HasRank result rank }
    ensures visits { Reads visits.old visits.new 1 }
{
    if asked == IN_VAIN {
        ranks.intersection(index.ranks(address, visits))
    } else {
        ranks
    }
}
