//! How a route goes from a tree.
ghost use Rattle.std.specs.Prelude.{◌≡◌, None, Some};
ghost use Rattle.std.specs.FinMap.{get};
ghost use Rattle.radix_nodes.specs.Rooms.{Has};
ghost use Rattle.radix_tree.specs.Index.{HasPlaceLess};
ghost use Rattle.radix_tree.specs.Marks.{HasRoomMore};
ghost use Rattle.radix_tree.specs.Removal.{KeepsRoutes, IsOut, member_beside, LosesRoute, IsUnlisted};
ghost use Rattle.radix_tree.specs.Rooms.{LeafPart, leaves_in};
ghost use Rattle.radix_tree.specs.Whole.{IsWhole, Holds};
ghost use Rattle.radix_tree.specs.Reads.{Stays};
ghost use Rattle.radix_nodes.specs.Naming.{number_of};

use crate::chains::remove_from_chain;
use crate::joining::remove_lone;
use crate::listing::unlist_mask;
use crate::moving::vacate;
use radix_nodes::{Id, Leaf, Node, Nodes, Room, Visits};

/// The room of another member of a leaf's chain, where there is one.
fn other_member(leaf: Leaf) -> Option<Id>
    ensures { result ≡ member_beside leaf.next leaf.previous }
{
    match leaf.next {
        Some(next) => Some(next),
        None => leaf.previous,
    }
}

/// Takes a route whose mask is not listed out of the tree, and answers the root from then on, or none where it was the
/// only route. The room stays in the map. Its bit node, where that is in use, moves to another member of the chain, or
/// where there is none to the room of the bit node that went with the route.
fn take_out<V>(nodes: &mut Nodes<V>, root: Node, at: Id, visits: &mut Visits) -> Option<Node>
    requires route { IsUnlisted nodes.old.lodged root at }
    requires turn { visits.old.turn ≡ nodes.old.turn }
    ensures out { IsOut nodes.new.lodged result (number_of at) }
    ensures routes { LosesRoute nodes.old.lodged nodes.new.lodged at root result }
    ensures rooms { KeepsRoutes nodes.old.lodged nodes.new.lodged }
    ensures stays { Stays nodes.old nodes.new visits.old visits.new }
{
    let leaf = nodes.links(at, visits).leaf();
    let above = leaf.above;
    if let Some(to) = other_member(leaf) {
        let rest = remove_from_chain(nodes, root, at, visits);
        return Some(vacate(nodes, rest, at, to, visits));
    }
    match above {
        None => None,
        Some(_) => {
            let (rest, to) = remove_lone(nodes, root, at, visits);
            Some(vacate(nodes, rest, at, to, visits))
        }
    }
}

/// Takes a route out of the tree beneath a root, and its room out of the map. Answers the root from then on, or none
/// where it was the only route, the room, and the value.
pub(crate) fn remove_route<V>(
    nodes: &mut Nodes<V>,
    root: Node,
    at: Id,
    visits: &mut Visits,
) -> (Option<Node>, Room<V>, V)
    requires whole { IsWhole nodes.old.lodged root }
    requires there { Has nodes.old.lodged at }
    requires turn { visits.old.turn ≡ nodes.old.turn }
    ensures whole { Holds nodes.new.lodged result.0 }
    ensures routes { LosesRoute nodes.old.lodged nodes.new.lodged at root result.0 }
    ensures value { (p : LeafPart V) → leaves_in nodes.old.lodged (number_of at) ≡ Some p → result.2 ≡ p.value }
    ensures number { result.1 ≡ number_of at }
    ensures rooms { HasRoomMore nodes.new.lodged nodes.old.lodged (number_of at) }
    ensures places { HasPlaceLess nodes.old.lodged nodes.new.lodged at }
    ensures gone { get nodes.new.lodged (number_of at) ≡ None }
    ensures stays { Stays nodes.old nodes.new visits.old visits.new }
{
    unlist_mask(nodes, at, visits);
    let rest = take_out(nodes, root, at, visits);
    let (room, value) = nodes.evict(at);
    (rest, room, value)
}
