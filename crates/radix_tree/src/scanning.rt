//! The way along the chain of a leaf.
ghost use Rattle.std.specs.Prelude.{◌≡◌, Some};
ghost use Rattle.radix_tree.specs.Bounds.{ranks, chain_reads};
ghost use Rattle.radix_tree.specs.Reads.{Reads};
ghost use Rattle.radix_tree.specs.Rooms.{Run, first_room};
ghost use Rattle.radix_tree.specs.Tree.{IsAmong};
ghost use Rattle.radix_tree.specs.Searches.{Tells, Finds, Best, HasPair};

use crate::roles;
use mask_table::{Rank, agrees};
use radix_nodes::{Id, Nodes, Visits};
use sock_addrs::Inet;

/// The first route of a chain that an address agrees with, by its room: the one of greatest rank.
pub(crate) fn first_agreeing<V>(
    nodes: &Nodes<V>,
    first: Id,
    address: Inet,
    visits: &mut Visits,
) -> Option<Id>
    requires chain { (c : Run nodes.now.lodged) × (first_room c.members ≡ Some first) }
    requires turn { visits.old.turn ≡ nodes.now.turn }
    ensures best { (c : Run nodes.now.lodged) → first_room c.members ≡ Some first
        → Tells (Best address 0 ranks (λ y. IsAmong y c.members)) result }
    ensures visits { Reads visits.old visits.new chain_reads }
{
    let mut at = Some(first);
    while let Some(room) = at {
        let leaf = roles::leaf(nodes, room, visits);
        if agrees(leaf.key, leaf.rank, address) {
            return Some(room);
        }
        at = leaf.next;
    }
    None
}

/// The route of a chain that has this key and this rank, by its room.
pub(crate) fn of_pair<V>(
    nodes: &Nodes<V>,
    first: Id,
    key: Inet,
    rank: Rank,
    visits: &mut Visits,
) -> Option<Id>
    requires chain { (c : Run nodes.now.lodged) × (first_room c.members ≡ Some first) }
    requires turn { visits.old.turn ≡ nodes.now.turn }
    ensures found { (c : Run nodes.now.lodged) → first_room c.members ≡ Some first
        → Tells (Finds (HasPair key rank) (λ y. IsAmong y c.members)) result }
    ensures visits { Reads visits.old visits.new chain_reads }
{
    let mut at = Some(first);
    while let Some(room) = at {
        let leaf = roles::leaf(nodes, room, visits);
        if leaf.key == key && leaf.rank == rank {
            return Some(room);
        }
        at = leaf.next;
    }
    None
}
