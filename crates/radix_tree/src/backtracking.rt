//! The way up a tree, past the masks that are listed on it.
ghost use Rattle.std.specs.Prelude.{◌≡◌, ◌+◌, ◌-◌};
ghost use Rattle.radix_tree.specs.Bounds.{ranks, pair_reads, room_reads};
ghost use Rattle.radix_tree.specs.Reads.{Reads};
ghost use Rattle.radix_tree.specs.Rooms.{Part, AreListed, name_of, heads_in};
ghost use Rattle.radix_tree.specs.Searches.{Tells, Finds, Best, HasPair, In, ForkAt};
ghost use Rattle.radix_tree.specs.Whole.{IsWhole};
ghost use Rattle.radix_nodes.specs.Naming.{number_of};

use crate::descent::leaf_for;
use crate::roles;
use crate::scanning::{first_agreeing, of_pair};
use mask_table::{Rank, agrees};
use radix_nodes::{Id, Node, Nodes, Visits};
use sock_addrs::Inet;

/// The route beneath a node that has this key and this rank, by its room.
pub(crate) fn room_of<V>(
    nodes: &Nodes<V>,
    from: Node,
    key: Inet,
    rank: Rank,
    visits: &mut Visits,
) -> Option<Id>
    requires tree { (p : Part nodes.now.lodged) × (name_of p.tree ≡ from) }
    requires turn { visits.old.turn ≡ nodes.now.turn }
    ensures found { (p : Part nodes.now.lodged) → name_of p.tree ≡ from
        → Tells (Finds (HasPair key rank) (In p)) result }
    ensures visits { Reads visits.old visits.new pair_reads }
{
    let leaf = leaf_for(nodes, from, key, visits);
    of_pair(nodes, leaf, key, rank, visits)
}

/// The best route of an address among those beneath a bit node whose masks are listed there, by its room.
///
/// No search is needed. All keys beneath the node are the same before its bit, and a listed mask ends before it; so a
/// route beneath the node that has this mask has one key, and is the very route in whose room the mask is listed.
fn best_listed<V>(
    nodes: &Nodes<V>,
    first: Option<Id>,
    address: Inet,
    visits: &mut Visits,
) -> Option<Id>
    requires node { (p : Part nodes.now.lodged) × (room : Id) × ForkAt p room × AreListed nodes.now.lodged p
        × (heads_in nodes.now.lodged (number_of room) ≡ first) }
    requires turn { visits.old.turn ≡ nodes.now.turn }
    ensures best { (p : Part nodes.now.lodged) (room : Id) (f : ForkAt p room) → AreListed nodes.now.lodged p
        → heads_in nodes.now.lodged (number_of room) ≡ first → Tells (Best address p.low (f.bit + 1) (In p)) result }
    ensures visits { (p : Part nodes.now.lodged) (room : Id) (f : ForkAt p room) → AreListed nodes.now.lodged p
        → heads_in nodes.now.lodged (number_of room) ≡ first → Reads visits.old visits.new (f.bit + 1 - p.low) }
{
    let mut at = first;
    while let Some(listed) = at {
        let (leaf, mask) = roles::mask_node(nodes, listed, visits);
        if agrees(leaf.key, leaf.rank, address) {
            return Some(listed);
        }
        at = mask.next;
    }
    None
}

/// The best route of an address, by its room.
pub(crate) fn best_room<V>(
    nodes: &Nodes<V>,
    root: Node,
    address: Inet,
    visits: &mut Visits,
) -> Option<Id>
    requires whole { IsWhole nodes.now.lodged root }
    requires turn { visits.old.turn ≡ nodes.now.turn }
    ensures best { (w : IsWhole nodes.now.lodged root) → Tells (Best address 0 ranks (In w.part)) result }
    ensures visits { Reads visits.old visits.new room_reads }
{
    let leaf = leaf_for(nodes, root, address, visits);
    if let Some(found) = first_agreeing(nodes, leaf, address, visits) {
        return Some(found);
    }
    let mut at = roles::leaf(nodes, leaf, visits).above;
    while let Some(room) = at {
        let node = roles::bit_node(nodes, room, visits);
        if let Some(found) = best_listed(nodes, node.masks, address, visits) {
            return Some(found);
        }
        at = node.above;
    }
    None
}
